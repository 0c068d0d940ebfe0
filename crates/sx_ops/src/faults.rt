// Why a horizontal split doesn't fit a catalog.
ghost use Rattle.std.specs.Prelude.{◌≡◌, ◌+◌, ◌<◌, ◌^◌, length};
ghost use Rattle.sx_ops.specs.Checks.{Refuses, column_fault, is_known, is_of_kind, fits_column, types_fault, names_fault};
ghost use Rattle.sx_lists.specs.Answers.{unless};
ghost use Rattle.sx_values.specs.Names.{has_name};
ghost use Rattle.sx_values.specs.SchemaFaults.{names_of};
ghost use Rattle.sx_values.specs.Catalogs.{source_schema};
ghost use Rattle.std.specs.Option.{option_copied};

use crate::{SpecFault, Test};
use std::alloc::{AllocError, Global};
use sx_lists::Copied;
use sx_values::{Catalog, Column, Kind, Name, Schema, Value};

impl From<AllocError> for SpecFault {
    ghost use Rattle.sx_ops.specs.declared.spec.SpecFault.TheVariants.{Memory};

    ghost from_gives = { λ _ fault. fault ≡ Memory };

    fn from(_error: AllocError) -> Self {
        SpecFault::Memory
    }
}

// The schema of a table that may be the source of a transformation, or None for any other name.
pub(crate) fn source_schema<'a>(catalog: &'a Catalog, name: &Name) -> Option<&'a Schema>
    ensures source { option_copied result ≡ source_schema catalog.now name.now }
{
    if catalog.is_source(name) {
        catalog.schema(name)
    } else {
        None
    }
}

// Looks for the column of each test.
pub(crate) fn check_columns(
    alloc: Global,
    columns: &[Column],
    tests: &[Test],
) -> Result<(), SpecFault>
    ensures { Refuses (column_fault columns.now tests.now) result }
{
    let [test, tests @ ..] = tests else {
        return Ok(());
    };
    if has_name(columns, &test.column) {
        check_columns(alloc, columns, tests)
    } else {
        Err(SpecFault::NoColumn {
            name: test.column.copy(alloc)?,
        })
    }
}

// Whether a column has this name.
fn has_name(columns: &[Column], name: &Name) -> bool
    ensures { result ≡ has_name (names_of columns.now) name.now }
{
    match columns {
        [] => false,
        [column, columns @ ..] => *name == column.name || has_name(columns, name),
    }
}

// Compares the kind of each test's constant with that of its column. The first test has this place.
pub(crate) fn check_types(place: u64, columns: &[Column], tests: &[Test]) -> Result<(), SpecFault>
    requires { place + length tests.now < 2 ^ 64 }
    ensures exact { result ≡ unless (types_fault place columns.now tests.now) tt }
    ensures fault { Refuses (types_fault place columns.now tests.now) result }
{
    let [test, tests @ ..] = tests else {
        return Ok(());
    };
    if fits_column(columns, &test.column, &test.value) {
        check_types(place + 1, columns, tests)
    } else {
        Err(SpecFault::Types { place })
    }
}

// Whether the column of this name has the kind of a constant.
fn fits_column(columns: &[Column], name: &Name, constant: &Value) -> bool
    ensures { result ≡ fits_column columns.now name.now constant.now }
{
    match columns {
        [] => false,
        [column, columns @ ..] => {
            if column.name == *name {
                is_of_kind(column.kind, constant)
            } else {
                fits_column(columns, name, constant)
            }
        }
    }
}

// Whether a constant is of a kind.
fn is_of_kind(kind: Kind, constant: &Value) -> bool
    ensures { result ≡ is_of_kind kind constant.now }
{
    matches!(
        (kind, constant),
        (Kind::Int, Value::Int(_)) | (Kind::Text, Value::Text(_))
    )
}

// Looks whether both new names are free.
pub(crate) fn check_names(
    alloc: Global,
    catalog: &Catalog,
    passing: &Name,
    failing: &Name,
) -> Result<(), SpecFault>
    ensures { Refuses (names_fault catalog.now passing.now failing.now) result }
{
    if is_known(catalog, passing) {
        return Err(SpecFault::NameTaken {
            name: passing.copy(alloc)?,
        });
    }
    if is_known(catalog, failing) || *passing == *failing {
        return Err(SpecFault::NameTaken {
            name: failing.copy(alloc)?,
        });
    }
    Ok(())
}

// Whether a table of this name is known.
fn is_known(catalog: &Catalog, name: &Name) -> bool
    ensures { result ≡ is_known catalog.now name.now }
{
    catalog.schema(name).is_some()
}
