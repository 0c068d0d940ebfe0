// Transformations as plain data, and what they make of tables.
ghost use Rattle.std.specs.Prelude.{◌≡◌, IfOk};
ghost use Rattle.sx_ops.specs.Checks.{IsShaped, Refuses, spec_fault};
ghost use Rattle.sx_ops.specs.Targets.{targets};
ghost use Rattle.sx_ops.specs.Operators.{AreSourceRows, is_split, columns_of, sources_of, operator};

use crate::faults::{check_columns, check_names, check_types, source_schema};
use crate::part::{part_targets, split_rows};
use crate::{RowLists, Targets, Tests};
use std::alloc::{AllocError, Global};
use sx_lists::Copied;
use sx_values::{Catalog, Column, Name, Names, Schema, Value};

/// A transformation: its sources, what decides, and its new tables.
#[derive(Debug, Drop)]
pub enum Spec {
    /// The full outer join of two tables on pairs of columns.
    Join {
        left: Name,
        right: Name,
        on_left: Names,
        on_right: Names,
        into: Name,
    },
    /// The vertical split: `rest` without the columns `dep`, and `dependent` with `by` and `dep`.
    Split {
        table: Name,
        by: Names,
        dep: Names,
        rest: Name,
        dependent: Name,
    },
    /// The horizontal split: `yes` has the rows for which every test is true, `no` the others.
    Part {
        table: Name,
        tests: Tests,
        yes: Name,
        no: Name,
    },
    /// The union of two tables, with the column `origin` in front.
    Union {
        left: Name,
        right: Name,
        into: Name,
    },
}

/// A comparison of a column with a constant. It isn't true of a Null.
#[derive(Debug, Drop)]
pub struct Test {
    pub column: Name,
    pub cmp: Cmp,
    pub value: Value,
}

/// How a column is compared.
#[derive(Clone, Copy, Debug, PartialEq, Eq)]
pub enum Cmp {
    Eq,
    Ne,
    Lt,
    Le,
    Gt,
    Ge,
}

/// A new table of a transformation.
#[derive(Debug, Drop)]
pub struct Target {
    pub name: Name,
    pub schema: Schema,
}

/// Why a transformation doesn't fit a catalog.
#[derive(Debug, Drop)]
pub enum SpecFault {
    Memory,
    /// The source isn't declared.
    NoTable { name: Name },
    /// Both sources are this table.
    SameTable { name: Name },
    /// The source has no such column.
    NoColumn { name: Name },
    /// The column stands twice.
    Repeated { name: Name },
    /// The kinds of the pair or the comparison at this place from 1 differ; at 0, the schemas do.
    Types { place: u64 },
    /// The column takes Null and may not.
    Nullable { name: Name },
    /// The column is part of the key and may not be.
    KeyMissing { name: Name },
    /// The name of a new table or column is taken.
    NameTaken { name: Name },
    /// The table lacks the index that the transformation needs.
    NoIndex { table: Name },
}

impl Spec {
    /// Whether the transformation fits a catalog; else its first fault, in the order of the refusals.
    pub fn check(&self, alloc: Global, catalog: &Catalog) -> Result<(), SpecFault>
        requires { IsShaped self.now }
        ensures { Refuses (spec_fault catalog.now self.now) result }
    {
        match self {
            Spec::Part {
                table,
                tests,
                yes,
                no,
            } => {
                let Some(source) = source_schema(catalog, table) else {
                    return Err(SpecFault::NoTable {
                        name: table.copy(alloc)?,
                    });
                };
                check_columns(alloc, source.columns(), tests.as_slice())?;
                check_types(1, source.columns(), tests.as_slice())?;
                check_names(alloc, catalog, yes, no)
            }
            Spec::Join { .. } | Spec::Split { .. } | Spec::Union { .. } => unreachable!(),
        }
    }

    /// Whether it is a vertical split.
    pub fn is_split(&self) -> bool
        ensures { result ≡ is_split self.now }
    {
        matches!(self, Spec::Split { .. })
    }

    /// The new tables in order: their names and schemas.
    pub fn targets(&self, alloc: Global, catalog: &Catalog) -> Result<Targets, AllocError>
        requires shaped { IsShaped self.now }
        requires fits { spec_fault catalog.now self.now ≡ None }
        ensures { IfOk result (λ made. made ≡ targets catalog.now self.now) }
    {
        match self {
            Spec::Part { table, yes, no, .. } => match catalog.schema(table) {
                Some(schema) => part_targets(alloc, schema, yes, no),
                None => unreachable!(),
            },
            Spec::Join { .. } | Spec::Split { .. } | Spec::Union { .. } => unreachable!(),
        }
    }

    /// The rows of the new tables, in order, from the rows of each source: the slow and plain form.
    pub fn transform(
        &self,
        alloc: Global,
        catalog: &Catalog,
        sources: &RowLists,
    ) -> Result<RowLists, AllocError>
        requires shaped { IsShaped self.now }
        requires fits { spec_fault catalog.now self.now ≡ None }
        requires rows { AreSourceRows catalog.now (sources_of self.now) sources.now }
        ensures { IfOk result (λ tables. tables ≡ operator catalog.now self.now sources.now) }
    {
        match self {
            Spec::Part { table, tests, .. } => split_rows(
                alloc,
                columns_of(catalog, table),
                tests.as_slice(),
                sources.as_slice(),
            ),
            Spec::Join { .. } | Spec::Split { .. } | Spec::Union { .. } => unreachable!(),
        }
    }
}

// The columns of the table of this name; none where there is no such table.
fn columns_of<'a>(catalog: &'a Catalog, name: &Name) -> &'a [Column]
    ensures { result.now ≡ columns_of catalog.now name.now }
{
    match catalog.schema(name) {
        Some(schema) => schema.columns(),
        None => &[],
    }
}
