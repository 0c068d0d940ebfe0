// Examples of transformations, whose answers come from the rules that they keep.
ghost use Rattle.std.specs.Prelude.{◌≡◌, ◌≤◌, [], ◌∷◌, All, IfOk, IfSome, IsTrue, length};
ghost use Rattle.std.specs.List.{list_any};
ghost use Rattle.sx_values.specs.Catalogs.{schema_of};
ghost use Rattle.sx_values.specs.Layouts.{Admits, is_null};
ghost use Rattle.sx_values.specs.SchemaFaults.{IsDeclarable};
ghost use Rattle.sx_values.specs.declared.schema.Column.{Column as TheColumn};
ghost use Rattle.sx_ops.specs.declared.spec.Test.{Test as TheTest};
ghost use Rattle.sx_ops.specs.Checks.{AreTests, IsShaped};
ghost use Rattle.sx_ops.specs.Operators.{AreSourceRows, sources_of};
ghost use Rattle.sx_ops.specs.declared.spec.Spec.TheVariants.{Part};

use crate::{Cmp, RowLists, Rows, Spec, SpecFault, Target, Targets, Test, Tests};
use std::alloc::{AllocError, Global};
use std::process::Abort;
use std::test::Fail;
use sx_lists::{Copied, Same};
use sx_values::{
    Catalog, Column, Columns, Kind, Name, Names, Numbers, Row, Schema, SchemaFault, Text, Value,
};

#[test]
fn texts_are_compared(rt: HostRuntime) -> Result<(), Fail> {
    let alloc = rt.alloc();
    assert_eq!(rt; parted(&rt, alloc, "s", Cmp::Eq, "b")?, (1, 0));
    assert_eq!(rt; parted(&rt, alloc, "s", Cmp::Ne, "b")?, (0, 1));
    assert_eq!(rt; parted(&rt, alloc, "s", Cmp::Lt, "bb")?, (1, 0));
    Ok(())
}

#[test]
fn numbers_are_compared(rt: HostRuntime) -> Result<(), Fail> {
    let alloc = rt.alloc();
    assert_eq!(rt; parted(&rt, alloc, "id", Cmp::Le, "7")?, (1, 0));
    assert_eq!(rt; parted(&rt, alloc, "id", Cmp::Gt, "7")?, (0, 1));
    assert_eq!(rt; parted(&rt, alloc, "id", Cmp::Ge, "-8")?, (1, 0));
    Ok(())
}

#[test]
fn null_passes_no_comparison(rt: HostRuntime) -> Result<(), Fail> {
    let alloc = rt.alloc();
    assert_eq!(rt; parted(&rt, alloc, "n", Cmp::Lt, "9")?, (0, 1));
    assert_eq!(rt; parted(&rt, alloc, "n", Cmp::Ne, "9")?, (0, 1));
    Ok(())
}

#[test]
fn comparisons_are_joined(rt: HostRuntime) -> Result<(), Fail> {
    let alloc = rt.alloc();
    let mut both = tests(alloc, "s", Cmp::Eq, "b")?;
    both.push(test(alloc, "id", Cmp::Ne, "7")?)?;
    let tables = split(&rt, alloc, &catalog(&rt, alloc)?, both)?;
    assert_eq!(rt; lengths(&tables), (0, 1));
    Ok(())
}

#[test]
fn targets_are_made(rt: HostRuntime) -> Result<(), Fail> {
    let alloc = rt.alloc();
    let catalog = catalog(&rt, alloc)?;
    let tests = tests(alloc, "n", Cmp::Lt, "500")?;
    let spec = part(&rt, alloc, "t", tests, "low", "high")?;
    let targets = targets(alloc, &catalog, &spec)?;
    assert_eq!(rt; targets.len(), 2);
    assert!(rt; is_like_t(&catalog, targets.at(1), "low"));
    assert!(rt; is_like_t(&catalog, targets.at(2), "high"));
    Ok(())
}

#[test]
fn faults_come_in_order(rt: HostRuntime) -> Result<(), Fail> {
    let alloc = rt.alloc();
    let table = fault(&rt, alloc, "x", &["s", "z"], "t", "t")?;
    assert!(rt; blames(&table, "table", "x"));
    let column = fault(&rt, alloc, "t", &["s", "z", "y"], "t", "t")?;
    assert!(rt; blames(&column, "column", "z"));
    let types = fault(&rt, alloc, "t", &["n", "s", "s"], "t", "t")?;
    assert!(rt; matches!(types, SpecFault::Types { place: 2 }));
    Ok(())
}

#[test]
fn names_are_taken(rt: HostRuntime) -> Result<(), Fail> {
    let alloc = rt.alloc();
    let first = fault(&rt, alloc, "t", &["n"], "t", "b")?;
    assert!(rt; blames(&first, "name", "t"));
    let second = fault(&rt, alloc, "t", &["n"], "a", "t")?;
    assert!(rt; blames(&second, "name", "t"));
    let twice = fault(&rt, alloc, "t", &["n"], "a", "a")?;
    assert!(rt; blames(&twice, "name", "a"));
    Ok(())
}

#[test]
fn a_text_fits_no_number(rt: HostRuntime) -> Result<(), Fail> {
    let alloc = rt.alloc();
    let catalog = catalog(&rt, alloc)?;
    let tests = tests(alloc, "n", Cmp::Eq, "x")?;
    let spec = part(&rt, alloc, "t", tests, "t", "t")?;
    let fault = spec.check(alloc, &catalog).err().ok_or("fits")?;
    assert!(rt; matches!(fault, SpecFault::Types { place: 1 }));
    Ok(())
}

#[test]
fn specs_are_copied(rt: HostRuntime) -> Result<(), Fail> {
    let alloc = rt.alloc();
    let tests = tests(alloc, "n", Cmp::Eq, "x")?;
    assert!(rt; is_copied(alloc, &part(&rt, alloc, "a", tests, "b", "c")?));
    assert!(rt; is_copied(alloc, &joined(alloc, "a", "b", "c")?));
    assert!(rt; is_copied(alloc, &cut(alloc, "a", "b", "c")?));
    assert!(rt; is_copied(alloc, &united(alloc, "a", "b", "c")?));
    Ok(())
}

#[test]
fn comparisons_are_copied(rt: HostRuntime) -> Result<(), Fail> {
    let alloc = rt.alloc();
    let copied = test(alloc, "n", Cmp::Ge, "9")?.copy(alloc)?;
    assert_eq!(rt; copied.cmp.copy(alloc)?, Cmp::Ge);
    assert!(rt; copied.value == Value::Int(9));
    assert_eq!(rt; copied.column.as_bytes(), b"n".as_slice());
    Ok(())
}

// Whether a transformation is copied, by the name of its first new table.
fn is_copied(alloc: Global, spec: &Spec) -> bool {
    match spec.copy(alloc) {
        Ok(copy) => *first_new(&copy) == *first_new(spec),
        Err(_) => false,
    }
}

// The name of the first new table.
fn first_new(spec: &Spec) -> &Name {
    match spec {
        Spec::Part { yes, .. } => yes,
        Spec::Split { rest, .. } => rest,
        Spec::Join { into, .. } | Spec::Union { into, .. } => into,
    }
}

// A full outer join.
fn joined(alloc: Global, left: &str, right: &str, into: &str) -> Result<Spec, Fail> {
    Ok(Spec::Join {
        left: name(alloc, left)?,
        right: name(alloc, right)?,
        on_left: Names::new(alloc),
        on_right: Names::new(alloc),
        into: name(alloc, into)?,
    })
}

// A vertical split.
fn cut(alloc: Global, table: &str, rest: &str, dependent: &str) -> Result<Spec, Fail> {
    Ok(Spec::Split {
        table: name(alloc, table)?,
        by: Names::new(alloc),
        dep: Names::new(alloc),
        rest: name(alloc, rest)?,
        dependent: name(alloc, dependent)?,
    })
}

fn united(alloc: Global, left: &str, right: &str, into: &str) -> Result<Spec, Fail> {
    Ok(Spec::Union {
        left: name(alloc, left)?,
        right: name(alloc, right)?,
        into: name(alloc, into)?,
    })
}

// Whether a new table has this name and the schema of the table t.
fn is_like_t(catalog: &Catalog, target: Option<&Target>, name: &str) -> bool {
    match (target, catalog.tables()) {
        (Some(target), [source]) => {
            target.name.as_bytes() == name.as_bytes() && target.schema.is_same(&source.schema)
        }
        _ => false,
    }
}

// Copies of the new tables.
fn targets(alloc: Global, catalog: &Catalog, spec: &Spec) -> Result<Targets, SpecFault>
    requires { IsShaped spec.now }
{
    spec.check(alloc, catalog)?;
    Ok(spec.targets(alloc, catalog)?.copy(alloc)?)
}

// The fault, copied, of a split by columns that have to be 1.
fn fault(
    rt: &impl Abort,
    alloc: Global,
    table: &str,
    columns: &[&str],
    yes: &str,
    no: &str,
) -> Result<SpecFault, Fail> {
    let catalog = catalog(rt, alloc)?;
    let spec = part(rt, alloc, table, ones(alloc, columns)?, yes, no)?;
    let fault = spec.check(alloc, &catalog).err().ok_or("fits")?;
    Ok(fault.copy(alloc)?)
}

// Whether a fault is of this kind, and blames this name.
fn blames(fault: &SpecFault, kind: &str, blamed: &str) -> bool {
    let (of, name) = match fault {
        SpecFault::NoTable { name } => ("table", name),
        SpecFault::NoColumn { name } => ("column", name),
        SpecFault::NameTaken { name } => ("name", name),
        _ => return false,
    };
    of == kind && name.as_bytes() == blamed.as_bytes()
}

// How many rows the new tables have where the row 7, NULL, b is parted by a comparison.
fn parted(
    rt: &impl Abort,
    alloc: Global,
    column: &str,
    cmp: Cmp,
    constant: &str,
) -> Result<(u64, u64), Fail> {
    let catalog = catalog(rt, alloc)?;
    let tables = split(rt, alloc, &catalog, tests(alloc, column, cmp, constant)?)?;
    Ok(lengths(&tables))
}

// The new tables of a split of the table t, whose one row is 7, NULL, b.
fn split(
    rt: &impl Abort,
    alloc: Global,
    catalog: &Catalog,
    tests: Tests,
) -> Result<RowLists, Fail> {
    let (table, row) = (name(alloc, "t")?, row(alloc)?);
    assert!(rt; is_admitted(catalog, &table, &row));
    let sources = sources(alloc, catalog, &table, row)?;
    assert!(rt; are_shaped(&tests));
    let spec = named(table, tests, name(alloc, "low")?, name(alloc, "high")?);
    Ok(transformed(alloc, catalog, &spec, &sources)?)
}

fn named(table: Name, tests: Tests, yes: Name, no: Name) -> Spec
    ensures { result ≡ Part table tests yes no }
{
    Spec::Part {
        table,
        tests,
        yes,
        no,
    }
}

fn transformed(
    alloc: Global,
    catalog: &Catalog,
    spec: &Spec,
    sources: &RowLists,
) -> Result<RowLists, SpecFault>
    requires shaped { IsShaped spec.now }
    requires rows { AreSourceRows catalog.now (sources_of spec.now) sources.now }
{
    spec.check(alloc, catalog)?;
    Ok(spec.transform(alloc, catalog, sources)?)
}

// Whether the table of this name takes a row.
fn is_admitted(catalog: &Catalog, table: &Name, row: &Row) -> bool
    ensures { IsTrue result → IfSome (schema_of catalog.now table.now) (λ schema. Admits schema row.now) }
{
    match catalog.schema(table) {
        Some(schema) => schema.admits(row).is_ok(),
        None => false,
    }
}

// How many rows each of two tables has.
fn lengths(tables: &RowLists) -> (u64, u64) {
    match tables.as_slice() {
        [passing, failing] => (passing.len(), failing.len()),
        _ => (9, 9),
    }
}

// The rows of the one source, of which there is one.
fn sources(alloc: Global, catalog: &Catalog, table: &Name, row: Row) -> Result<RowLists, AllocError>
    requires { IfSome (schema_of catalog.now table.now) (λ schema. Admits schema row) }
    ensures { IfOk result (AreSourceRows catalog.now (table.now ∷ [])) }
{
    one_list(alloc, row)
}

fn one_list(alloc: Global, row: Row) -> Result<RowLists, AllocError>
    ensures { IfOk result (λ sources. sources ≡ (row ∷ []) ∷ []) }
{
    let mut rows = Rows::new(alloc);
    rows.push(row)?;
    let mut sources = RowLists::new(alloc);
    sources.push(rows)?;
    Ok(sources)
}

fn row(alloc: Global) -> Result<Row, Fail> {
    let mut row = Row::new(alloc);
    row.push(Value::Int(7))?;
    row.push(Value::Null)?;
    row.push(Value::Text(Text::new(alloc, b"b")?))?;
    Ok(row)
}

// The table t, with the key id, a number n and a text s.
fn catalog(rt: &impl Abort, alloc: Global) -> Result<Catalog, Fail> {
    let mut columns = Columns::new(alloc);
    columns.push(column(alloc, "id", Kind::Int)?)?;
    columns.push(column(alloc, "n", Kind::Int)?)?;
    columns.push(column(alloc, "s", Kind::Text)?)?;
    let schema = keyed(rt, alloc, columns)?;
    assert!(rt; are_short(schema.columns()));
    let mut catalog = Catalog::new(alloc);
    catalog.declare(name(alloc, "t")?, schema)?;
    Ok(catalog)
}

// All columns but the key take Null.
fn column(alloc: Global, column: &str, kind: Kind) -> Result<Column, Fail> {
    Ok(Column {
        name: name(alloc, column)?,
        kind,
        nullable: column != "id",
    })
}

// The schema whose key is its first column.
fn keyed(rt: &impl Abort, alloc: Global, columns: Columns) -> Result<Schema, SchemaFault>
    ensures { IfOk result IsDeclarable }
{
    assert!(rt; 1 <= columns.len());
    match first_place(alloc) {
        Ok(key) => Schema::new(alloc, columns, key),
        Err(_) => Err(SchemaFault::Memory),
    }
}

fn first_place(alloc: Global) -> Result<Numbers, AllocError>
    ensures { IfOk result (λ places. places ≡ 0 ∷ []) }
{
    let mut places = Numbers::new(alloc);
    places.push(0)?;
    Ok(places)
}

// Whether two bytes can be added to each name.
fn are_short(columns: &[Column]) -> bool
    ensures { IsTrue result → All (λ (c : TheColumn). length c.name ≤ 30) columns.now }
{
    columns
        .iter()
        .all(|column| column.name.as_bytes().len() <= 30)
}

// A horizontal split of a table.
fn part(
    rt: &impl Abort,
    alloc: Global,
    table: &str,
    tests: Tests,
    yes: &str,
    no: &str,
) -> Result<Spec, Fail>
    ensures { IfOk result IsShaped }
{
    assert!(rt; are_shaped(&tests));
    let (table, yes, no) = (name(alloc, table)?, name(alloc, yes)?, name(alloc, no)?);
    Ok(named(table, tests, yes, no))
}

// A comparison of each of these columns with 1.
fn ones(alloc: Global, columns: &[&str]) -> Result<Tests, Fail> {
    let mut ones = Tests::new(alloc);
    for column in columns {
        ones.push(test(alloc, column, Cmp::Eq, "1")?)?;
    }
    Ok(ones)
}

// One comparison of a column with a constant.
fn tests(alloc: Global, column: &str, cmp: Cmp, constant: &str) -> Result<Tests, Fail> {
    let mut tests = Tests::new(alloc);
    tests.push(test(alloc, column, cmp, constant)?)?;
    Ok(tests)
}

fn test(alloc: Global, column: &str, cmp: Cmp, constant: &str) -> Result<Test, Fail> {
    Ok(Test {
        column: name(alloc, column)?,
        cmp,
        value: value(alloc, constant)?,
    })
}

// Whether a split may have these comparisons.
fn are_shaped(tests: &Tests) -> bool
    ensures { IsTrue result → AreTests tests.now }
{
    1 <= tests.len() && tests.len() <= 4 && !has_null(tests.as_slice())
}

// Whether a comparison is with Null.
fn has_null(tests: &[Test]) -> bool
    ensures { result ≡ list_any (λ (test : TheTest). is_null test.value) tests.now }
{
    tests.iter().any(|test| matches!(test.value, Value::Null))
}

fn name(alloc: Global, text: &str) -> Result<Name, Fail> {
    Ok(Name::new(alloc, text.as_bytes())?)
}

// The value of a word: a number, or else a text.
fn value(alloc: Global, word: &str) -> Result<Value, Fail> {
    match word.parse::<i64>() {
        Ok(number) => Ok(Value::Int(number)),
        Err(_) => Ok(Value::Text(Text::new(alloc, word.as_bytes())?)),
    }
}
