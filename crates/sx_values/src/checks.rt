// The faults of columns and a key as a schema.
ghost use Rattle.std.specs.Prelude.{◌≡◌, ◌<◌, IfSome, length, slice_get, option_and_then};
ghost use Rattle.sx_lists.specs.Answers.{unless};
ghost use Rattle.sx_values.specs.Names.{has_name, repeated_name};
ghost use Rattle.sx_values.specs.SchemaFaults.{names_of, columns_fault, length_fault, nullable_fault};

use crate::{Column, Columns, Name, Numbers, SchemaFault};

// The columns, where they are some, at most `limit` and of different names.
pub(crate) fn checked_columns(columns: Columns, limit: u64) -> Result<Columns, SchemaFault>
    ensures { result ≡ unless (columns_fault limit columns) columns }
{
    if columns.is_empty() {
        return Err(SchemaFault::NoColumns);
    }
    if columns.len() > limit {
        return Err(SchemaFault::TooManyColumns);
    }
    match repeated_place(columns.as_slice()) {
        None => Ok(columns),
        Some(place) => Err(SchemaFault::RepeatedName {
            name: name_at(columns, place),
        }),
    }
}

// The key, where it has columns, and at most `limit`.
pub(crate) fn checked_key(key: Numbers, limit: u64) -> Result<Numbers, SchemaFault>
    ensures { result ≡ unless (length_fault limit key) key }
{
    if key.is_empty() {
        return Err(SchemaFault::NoKey);
    }
    if key.len() > limit {
        return Err(SchemaFault::LongKey);
    }
    Ok(key)
}

// The first fault of a key column that takes Null.
pub(crate) fn nullable_fault(columns: &[Column], key: &[u64]) -> Option<SchemaFault>
    ensures { result ≡ nullable_fault columns.now key.now }
{
    match key {
        [] => None,
        [place, places @ ..] => match columns.get(*place as usize) {
            Some(column) if column.nullable => Some(SchemaFault::NullableKey {
                column: *place + 1,
            }),
            _ => nullable_fault(columns, places),
        },
    }
}

// The place from 0 of the first column whose name is that of an earlier one.
fn repeated_place(columns: &[Column]) -> Option<usize>
    ensures name { option_and_then (slice_get (names_of columns.now)) result
        ≡ repeated_name (names_of columns.now) }
    ensures within { IfSome result (λ place. place < length columns.now) }
{
    for (place, column) in columns.iter().enumerate() {
        if has_name(columns.split_at(place).0, &column.name) {
            return Some(place);
        }
    }
    None
}

// Whether a column has this name.
pub(crate) fn has_name(columns: &[Column], name: &Name) -> bool
    ensures { result ≡ has_name (names_of columns.now) name.now }
{
    columns.iter().any(|column| *name == column.name)
}

// The name of the column at a place from 0.
fn name_at(columns: Columns, place: usize) -> Name
    requires { place < length columns }
    ensures { slice_get (names_of columns) place ≡ Some result }
{
    let mut columns = columns.into_vec();
    let Column {
        name,
        kind: _,
        nullable: _,
    } = columns.remove(place);
    name
}
