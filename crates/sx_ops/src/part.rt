// The horizontal split over a whole list of rows.
ghost use Rattle.std.specs.Prelude.{◌≡◌, IfOk};
ghost use Rattle.sx_ops.specs.Targets.{part_targets};
ghost use Rattle.sx_ops.specs.Operators.{asks_for, is_true_of, value_named, passes, rows_passing, rows_failing, split_rows};

use crate::{Cmp, RowLists, Rows, Target, Targets, Test};
use std::alloc::{AllocError, Global};
use std::cmp::Ordering;
use sx_lists::Copied;
use sx_values::{Column, Name, Row, Schema, Value};

// Both new tables, which have the source's schema.
pub(crate) fn part_targets(
    alloc: Global,
    source: &Schema,
    yes: &Name,
    no: &Name,
) -> Result<Targets, AllocError>
    ensures { IfOk result (λ made. made ≡ part_targets (Some source.now) yes.now no.now) }
{
    let mut targets = Targets::new(alloc);
    targets.push(target_of(alloc, yes, source)?)?;
    targets.push(target_of(alloc, no, source)?)?;
    Ok(targets)
}

fn target_of(alloc: Global, name: &Name, schema: &Schema) -> Result<Target, AllocError>
    ensures { IfOk result (λ made. made ≡ record { name = name.now; schema = schema.now }) }
{
    Ok(Target {
        name: name.copy(alloc)?,
        schema: schema.copy(alloc)?,
    })
}

// The rows of both new tables, from the rows of the one source.
pub(crate) fn split_rows(
    alloc: Global,
    columns: &[Column],
    tests: &[Test],
    sources: &[Rows],
) -> Result<RowLists, AllocError>
    ensures { IfOk result (λ tables. tables ≡ split_rows columns.now tests.now sources.now) }
{
    let mut tables = RowLists::new(alloc);
    if let [rows, ..] = sources {
        let parts = parted(alloc, columns, tests, rows.as_slice())?;
        tables.push(parts.passing)?;
        tables.push(parts.failing)?;
    }
    Ok(tables)
}

// The rows for which every test is true, and the others.
#[derive(Drop)]
struct Parts {
    passing: Rows,
    failing: Rows,
}

// Copies of the rows, parted by the tests and in their order.
fn parted(
    alloc: Global,
    columns: &[Column],
    tests: &[Test],
    rows: &[Row],
) -> Result<Parts, AllocError>
    ensures passing { IfOk result (λ parts. parts.passing
        ≡ rows_passing columns.now tests.now rows.now) }
    ensures failing { IfOk result (λ parts. parts.failing
        ≡ rows_failing columns.now tests.now rows.now) }
{
    let mut passing = Rows::new(alloc);
    let mut failing = Rows::new(alloc);
    for row in rows {
        let copy = row.copy(alloc)?;
        if passes(columns, tests, row.as_slice()) {
            passing.push(copy)?;
        } else {
            failing.push(copy)?;
        }
    }
    Ok(Parts { passing, failing })
}

/// Whether every test is true of a row of a table with these columns.
pub fn passes(columns: &[Column], tests: &[Test], row: &[Value]) -> bool
    ensures { result ≡ passes columns.now tests.now row.now }
{
    tests.iter().all(|test| is_true_in(columns, test, row))
}

// Whether a test is true of the value of its column in a row.
#[tactic(auto, using(crate::proofs::RowLaws::value_named_nil))]
fn is_true_in(columns: &[Column], test: &Test, row: &[Value]) -> bool
    ensures { result ≡ is_true_of test.now (value_named columns.now test.now.column row.now) }
{
    let [column, columns @ ..] = columns else {
        return false;
    };
    let [value, row @ ..] = row else {
        return false;
    };
    if column.name == test.column {
        is_true_of(test, value)
    } else {
        is_true_in(columns, test, row)
    }
}

// Whether a test is true of a value.
fn is_true_of(test: &Test, value: &Value) -> bool
    ensures { result ≡ is_true_of test.now value.now }
{
    match value {
        Value::Null => false,
        value => asks_for(test.cmp, value.cmp(&test.value)),
    }
}

// Whether a comparison asks for this outcome.
fn asks_for(cmp: Cmp, order: Ordering) -> bool
    ensures { result ≡ asks_for cmp order }
{
    match cmp {
        Cmp::Eq => order.is_eq(),
        Cmp::Ne => order.is_ne(),
        Cmp::Lt => order.is_lt(),
        Cmp::Le => order.is_le(),
        Cmp::Gt => order.is_gt(),
        Cmp::Ge => order.is_ge(),
    }
}
