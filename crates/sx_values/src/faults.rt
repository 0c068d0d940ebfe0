// The first fault of values in their columns.
ghost use Rattle.std.specs.Prelude.{◌≡◌, ◌+◌, ◌^◌, ◌<◌, All, length, get_or, slice_get};
ghost use Rattle.std.specs.List.{list_all, filter_map};
ghost use Rattle.sx_values.specs.declared.value.Value.TheVariants as datum;
ghost use Rattle.sx_values.specs.Layouts.{is_null, value_fault, first_fault, projected};

use crate::{BadRow, Column, Kind, Value};

// The first fault of the values in their columns, of which the first has this number.
#[tactic(auto, using(crate::proofs::SchemaLaws::first_fault_nil))]
pub(crate) fn first_fault(columns: &[Column], values: &[Value], number: u64) -> Option<BadRow>
    requires { number + length columns.now < 2 ^ 64 }
    ensures { result ≡ first_fault number columns.now values.now }
{
    let [column, columns @ ..] = columns else {
        return None;
    };
    let [value, values @ ..] = values else {
        return None;
    };
    match value_fault(column, value, number) {
        None => first_fault(columns, values, number + 1),
        fault => fault,
    }
}

// The first fault of the values in the columns at these places, of which the first has this number.
#[tactic(auto, using(crate::proofs::SchemaLaws::first_fault_nil))]
pub(crate) fn first_key_fault(
    columns: &[Column],
    places: &[u64],
    values: &[Value],
    number: u64,
) -> Option<BadRow>
    requires within { All (λ place. place < length columns.now) places.now }
    requires fits { number + length places.now < 2 ^ 64 }
    ensures { result
        ≡ first_fault number (filter_map (slice_get columns.now) places.now) values.now }
{
    let [place, places @ ..] = places else {
        return None;
    };
    let [value, values @ ..] = values else {
        return None;
    };
    match value_fault(&columns[*place as usize], value, number) {
        None => first_key_fault(columns, places, values, number + 1),
        fault => fault,
    }
}

// Whether each value is Null.
pub(crate) fn are_null(values: &[Value]) -> bool
    ensures { result ≡ list_all is_null values.now }
{
    values.iter().all(is_null)
}

// Whether each value of a row at these places is Null.
pub(crate) fn are_null_at(row: &[Value], places: &[u64]) -> bool
    ensures { result ≡ list_all is_null (projected places.now row.now) }
{
    places.iter().all(|place| is_null_at(row, *place))
}

fn is_null_at(row: &[Value], place: u64) -> bool
    ensures { result ≡ is_null (get_or row.now place datum.Null) }
{
    row.get(place as usize).is_none_or(is_null)
}

fn is_null(value: &Value) -> bool
    ensures { result ≡ is_null value.now }
{
    matches!(value, Value::Null)
}

// The fault of a value in a column of this number from 1.
fn value_fault(column: &Column, value: &Value, number: u64) -> Option<BadRow>
    ensures { result ≡ value_fault number column.now value.now }
{
    match (value, column.kind) {
        (Value::Null, _) if column.nullable => None,
        (Value::Null, _) => Some(BadRow::Null { column: number }),
        (Value::Int(_), Kind::Int) | (Value::Text(_), Kind::Text) => None,
        _ => Some(BadRow::Kind { column: number }),
    }
}
