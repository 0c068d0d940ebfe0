// The image of a split of table `t` into `lo`, where `v` is below 10, and `hi`.
ghost use Rattle.std.specs.Prelude.{◌≡◌, ◌≤◌, All, IfOk, IsTrue, length, ◌<◌, IfSome};
ghost use Rattle.sx_values.specs.SchemaFaults.{IsDeclarable};
ghost use Rattle.sx_values.specs.declared.schema.Column.{Column as TheColumn};
ghost use Rattle.sx_heap.specs.Relations.{IsRowOf};
ghost use Rattle.sx_ops.specs.Checks.{IsPart, IsShaped};
ghost use Rattle.sx_part.specs.PartImages.{FitReadings, FitRecord, FitsBody, FitsKey, schema_in};

use crate::{PartImage, uncounted};
use std::alloc::{AllocError, Global};
use std::marker::Brand;
use std::process::Abort;
use std::sync::ledger::{Blank, Ledger};
use std::test::Fail;
use sx_heap::{Seen, Seens, Tables};
use sx_lists::Same;
use sx_log::{Body, Rec};
use sx_ops::{Cmp, Spec, Test, Tests};
use sx_steps::Steps;
use sx_values::{Catalog, Column, Columns, Key, Kind, Name, Numbers, Row, Schema, Value};

#[test]
fn a_record_before_the_reading_changes_nothing(rt: HostRuntime) -> Result<(), Fail> {
    let alloc = rt.alloc();
    let read = read_one(&rt, alloc, 6)?;
    let image = applied(&rt, alloc, read, update(alloc, 1, 20)?)?;
    assert!(rt; image.position() == 5);
    assert!(rt; has_only(alloc, &image.into_tables()?, 1, 1, 1)?);
    Ok(())
}

#[test]
fn a_row_changes_sides(rt: HostRuntime) -> Result<(), Fail> {
    let alloc = rt.alloc();
    let read = read_one(&rt, alloc, 3)?;
    let image = applied(&rt, alloc, read, update(alloc, 1, 20)?)?;
    let tables = image.into_tables()?;
    assert!(rt; has_only(alloc, &tables, 2, 1, 20)?);
    assert!(rt; is_bare(&tables, 1));
    Ok(())
}

#[test]
fn an_undo_is_followed(rt: HostRuntime) -> Result<(), Fail> {
    let alloc = rt.alloc();
    let read = read_one(&rt, alloc, 3)?;
    let written = applied(&rt, alloc, read, update(alloc, 1, 20)?)?;
    let image = applied(&rt, alloc, written, undo(alloc, 1, 2)?)?;
    assert!(rt; has_only(alloc, &image.into_tables()?, 1, 1, 2)?);
    Ok(())
}

#[test]
fn a_deleted_row_is_in_neither_table(rt: HostRuntime) -> Result<(), Fail> {
    let alloc = rt.alloc();
    let read = read_one(&rt, alloc, 3)?;
    let image = applied(&rt, alloc, read, delete(alloc, 1)?)?;
    let tables = image.into_tables()?;
    assert!(rt; is_bare(&tables, 1));
    assert!(rt; is_bare(&tables, 2));
    Ok(())
}

#[test]
fn a_missed_key_comes_by_its_insert(rt: HostRuntime) -> Result<(), Fail> {
    let alloc = rt.alloc();
    let missed = applied(&rt, alloc, image_of_none(&rt, alloc)?, update(alloc, 2, 5)?)?;
    let image = applied(&rt, alloc, missed, insert(alloc, 3, 30)?)?;
    let tables = image.into_tables()?;
    assert!(rt; is_bare(&tables, 1));
    assert!(rt; has_only(alloc, &tables, 2, 3, 30)?);
    Ok(())
}

// The image of the row 1,1, read under this LSN, at position 4.
fn read_one(rt: &impl Abort, alloc: Global, lsn: u64) -> Result<PartImage, Fail> {
    let mut image = image_of_none(rt, alloc)?;
    let seen = fitting(rt, alloc, &image, lsn)?;
    image.populate(0, &seen)?;
    Ok(image)
}

// The image of no row, at position 4.
fn image_of_none(rt: &impl Abort, alloc: Global) -> Result<PartImage, Fail> {
    let catalog = catalog(rt, alloc)?;
    let spec = spec(alloc)?;
    made(rt, alloc, &catalog, &spec)
}

// The image of no row of the split that fits this catalog.
fn made(rt: &impl Abort, alloc: Global, catalog: &Catalog, spec: &Spec) -> Result<PartImage, Fail>
    requires shaped { IsShaped spec.now }
    requires part { IsPart spec.now }
{
    assert!(rt; spec.check(alloc, catalog).is_ok());
    Ok(PartImage::new(alloc, catalog, spec, 4)?)
}

// The split of t into the rows whose v is below 10, and the others.
fn spec(alloc: Global) -> Result<Spec, Fail>
    ensures shaped { IfOk result IsShaped }
    ensures part { IfOk result IsPart }
{
    let mut tests = Tests::new(alloc);
    tests.push(Test {
        column: name(alloc, b"v")?,
        cmp: Cmp::Lt,
        value: Value::Int(10),
    })?;
    Ok(Spec::Part {
        table: name(alloc, b"t")?,
        tests,
        yes: name(alloc, b"lo")?,
        no: name(alloc, b"hi")?,
    })
}

// The table t with the key id and a number v.
fn catalog(rt: &impl Abort, alloc: Global) -> Result<Catalog, Fail> {
    let mut columns = Columns::new(alloc);
    for text in ["id", "v"] {
        columns.push(Column {
            name: name(alloc, text.as_bytes())?,
            kind: Kind::Int,
            nullable: false,
        })?;
    }
    let schema = keyed(rt, alloc, columns)?;
    assert!(rt; are_short(schema.columns()));
    let mut catalog = Catalog::new(alloc);
    catalog.declare(name(alloc, b"t")?, schema)?;
    Ok(catalog)
}

// The schema whose key is its first column.
fn keyed(rt: &impl Abort, alloc: Global, columns: Columns) -> Result<Schema, Fail>
    ensures { IfOk result IsDeclarable }
{
    assert!(rt; columns.len() > 0);
    let mut key = Numbers::new(alloc);
    key.push(0)?;
    Ok(Schema::new(alloc, columns, key)?)
}

// Whether two bytes can be added to each name.
fn are_short(columns: &[Column]) -> bool
    ensures { IsTrue result → All (λ (c : TheColumn). length c.name ≤ 30) columns.now }
{
    columns
        .iter()
        .all(|column| column.name.as_bytes().len() <= 30)
}

fn name(alloc: Global, text: &[u8]) -> Result<Name, Fail> {
    Ok(Name::new(alloc, text)?)
}

fn row(alloc: Global, id: i64, v: i64) -> Result<Row, Fail> {
    let mut row = Row::new(alloc);
    row.push(Value::Int(id))?;
    row.push(Value::Int(v))?;
    Ok(row)
}

fn key(alloc: Global, id: i64) -> Result<Key, Fail> {
    let mut key = Key::new(alloc);
    key.push(Value::Int(id))?;
    Ok(key)
}

// The reading of the row 1,1 under this LSN, which the image's source admits.
fn fitting(rt: &impl Abort, alloc: Global, image: &PartImage, lsn: u64) -> Result<Seens, Fail>
    ensures { IfOk result (λ seen. FitReadings seen image.now) }
{
    let mut seen = Seens::new(alloc);
    if let Some(parts) = &image.living {
        let schema = parts.passing.schema();
        seen.push(admitted(rt, alloc, schema, lsn)?)?;
    }
    Ok(seen)
}

// The row 1,1 of this schema, read under this LSN.
fn admitted(rt: &impl Abort, alloc: Global, schema: &Schema, lsn: u64) -> Result<Seen, Fail>
    ensures { IfOk result (IsRowOf schema.now) }
{
    let row = row(alloc, 1, 1)?;
    assert!(rt; schema.admits(&row).is_ok());
    let key = schema.key_of(alloc, &row)?;
    Ok(Seen { key, row, lsn })
}

// The image behind the next record, which its source admits.
fn applied(rt: &impl Abort, alloc: Global, image: PartImage, rec: Rec) -> Result<PartImage, Fail> {
    let mut image = image;
    assert!(rt; image.position() < 1_000);
    let place = image.position() + 1;
    assert!(rt; fits(alloc, &image, &rec)?);
    apply(alloc, &mut image, place, &rec)?;
    Ok(image)
}

// Takes in the next record. Nobody reads the counter.
fn apply(alloc: Global, image: &mut PartImage, place: u64, rec: &Rec) -> Result<(), Fail>
    requires { FitRecord place rec.now.body image.old }
{
    Ok(counted::<Brand>(image, place, rec, Blank::new(1))?)
}

fn counted<L: Ledger>(
    image: &mut PartImage,
    place: u64,
    rec: &Rec,
    blank: Blank,
) -> Result<(), AllocError>
    requires name { blank.name ≡ L.name }
    requires parts { blank.parts ≡ L.parts }
    requires some { 0 < blank.parts }
    requires fits { FitRecord place rec.now.body image.old }
{
    let mut steps = Steps::<L>::new(blank);
    image.apply(place, rec, &mut steps)
}

// Whether the source admits a record's images, as rows of its key.
#[tactic(auto, unfolding(crate::specs::PartImages::FitsBody))]
fn fits(alloc: Global, image: &PartImage, rec: &Rec) -> Result<bool, Fail>
    ensures { IfOk result (λ fits. IsTrue fits → IfSome image.now (λ parts. FitsBody (schema_in parts) parts.source rec.now.body)) }
{
    let Some(parts) = &image.living else {
        return Ok(true);
    };
    let schema = parts.passing.schema();
    match &rec.body {
        Body::Write {
            key,
            before,
            after,
            ..
        }
        | Body::Undo {
            key,
            before,
            after,
            ..
        } => Ok(is_row(alloc, schema, key, before)? && is_row(alloc, schema, key, after)?),
        Body::Commit | Body::Abort | Body::Mark | Body::Check { .. } | Body::Switch => Ok(true),
    }
}

// Whether the schema admits the row, if there is one, as that of this key.
fn is_row(alloc: Global, schema: &Schema, key: &Key, image: &Option<Row>) -> Result<bool, Fail>
    ensures { IfOk result (λ is. IsTrue is → FitsKey schema.now key.now image.now) }
{
    match image {
        Some(row) if schema.admits(row).is_ok() => Ok(schema.key_of(alloc, row)?.is_same(key)),
        Some(_) => Ok(false),
        None => Ok(true),
    }
}

fn insert(alloc: Global, id: i64, v: i64) -> Result<Rec, Fail> {
    write(alloc, id, None, Some(row(alloc, id, v)?))
}

// An update of a row whose v was 1.
fn update(alloc: Global, id: i64, v: i64) -> Result<Rec, Fail> {
    write(
        alloc,
        id,
        Some(row(alloc, id, 1)?),
        Some(row(alloc, id, v)?),
    )
}

fn delete(alloc: Global, id: i64) -> Result<Rec, Fail> {
    write(alloc, id, Some(row(alloc, id, 1)?), None)
}

fn write(alloc: Global, id: i64, before: Option<Row>, after: Option<Row>) -> Result<Rec, Fail> {
    Ok(Rec {
        txn: 1,
        body: Body::Write {
            table: name(alloc, b"t")?,
            key: key(alloc, id)?,
            before,
            after,
        },
    })
}

// The undo of the write of LSN 5.
fn undo(alloc: Global, id: i64, v: i64) -> Result<Rec, Fail> {
    Ok(Rec {
        txn: 1,
        body: Body::Undo {
            undoes: 5,
            table: name(alloc, b"t")?,
            key: key(alloc, id)?,
            before: Some(row(alloc, id, 20)?),
            after: Some(row(alloc, id, v)?),
        },
    })
}

// Whether the table at a place has this row alone.
fn has_only(alloc: Global, tables: &Tables, place: u64, id: i64, v: i64) -> Result<bool, Fail> {
    let wanted = row(alloc, id, v)?;
    let Some((_, table)) = tables.at(place) else {
        return Ok(false);
    };
    Ok(match uncounted::rows(alloc, table)?.as_slice() {
        [only] => only.is_same(&wanted),
        _ => false,
    })
}

fn is_bare(tables: &Tables, place: u64) -> bool {
    match tables.at(place) {
        Some((_, table)) => table.is_empty(),
        None => false,
    }
}
