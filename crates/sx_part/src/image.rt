// The image of a horizontal split.
ghost use Rattle.std.specs.Prelude.{◌≡◌, ◌+◌, ◌≤◌, None, map, OnOk, OnErr, IfOk, IsSomeAnd};
ghost use Rattle.sx_heap.specs.Relations.{IsRelation};
ghost use Rattle.sx_ops.specs.Checks.{IsPart, spec_fault};
ghost use Rattle.sx_copy.specs.FreshTables.{bare_rows, fresh_table};
ghost use Rattle.sx_part.specs.PartImages.{IsParted, IsMadeFor, IsEmptyAt, LearnsReadings, LearnsRecord, Becomes, FitReadings, FitRecord, AreTablesOf, position_of};

use crate::parts::Parts;
use crate::uncounted;
use std::alloc::{AllocError, Global};
use std::marker::Model;
use std::sync::ledger::Ledger;
use sx_heap::{Seens, Table, Tables};
use sx_lists::Copied;
use sx_log::Rec;
use sx_ops::{Rows, Spec};
use sx_steps::Steps;
use sx_values::{Catalog, Row};

/// The rows of a horizontal split over a copy of its source. It lives until `populate` or `apply` finds no memory.
#[derive(Drop)]
pub struct PartImage {
    pub(crate) living: Option<Parts>,
    alloc: Global,
}

impl Model for PartImage {
    ghost use Rattle.std.specs.Prelude.{Option};
    ghost use Rattle.sx_part.specs.declared.parts.Parts.{Parts};
    ghost use Rattle.sx_part.specs.PartImages.{IsPartedIf};

    ghost Value = { Option Parts };

    ghost view = { λ i. i.living };

    ghost invariant = { λ i. IsPartedIf i.living };
}

impl PartImage {
    /// The image of an empty copy, at the position of the mark.
    pub fn new(
        alloc: Global,
        catalog: &Catalog,
        spec: &Spec,
        mark: u64,
    ) -> Result<PartImage, AllocError>
        requires part { IsPart spec.now }
        requires fits { spec_fault catalog.now spec.now ≡ None }
        ensures made { IfOk result (λ image. IsSomeAnd image (IsMadeFor catalog.now spec.now)) }
        ensures empty { IfOk result (λ image. IsSomeAnd image (IsEmptyAt mark)) }
    {
        let Spec::Part {
            table,
            tests,
            yes,
            no,
        } = spec
        else {
            unreachable!()
        };
        let Some(schema) = catalog.schema(table) else {
            unreachable!()
        };
        let passing = Table::new(alloc, schema.copy(alloc)?);
        let failing = Table::new(alloc, schema.copy(alloc)?);
        Ok(PartImage {
            living: Some(Parts {
                source: table.copy(alloc)?,
                tests: tests.copy(alloc)?,
                yes: yes.copy(alloc)?,
                no: no.copy(alloc)?,
                passing,
                failing,
                position: mark,
            }),
            alloc,
        })
    }

    /// The place in the log up to which the copy has come; 0 of a dead image.
    pub fn position(&self) -> u64
        ensures { result ≡ position_of self.now }
    {
        match &self.living {
            Some(parts) => parts.position,
            None => 0,
        }
    }

    /// Merges the readings of a scan turn, each where the copy lacks the key or has it under a smaller LSN. The position stays.
    ///
    /// After want of memory the image is dead, and a dead one finds none.
    pub fn populate(&mut self, side: u8, seen: &Seens) -> Result<(), AllocError>
        requires side { side ≡ 0 }
        requires fits { FitReadings seen.now self.old }
        ensures ok { OnOk result (Becomes (LearnsReadings seen.now) self.old self.new) }
        ensures err { OnErr result (self.new ≡ None) }
    {
        let _only = side;
        let Some(mut parts) = self.living.take() else {
            return Err(AllocError);
        };
        uncounted::learn_all(self.alloc, &mut parts, seen.as_slice())?;
        self.living = Some(parts);
        Ok(())
    }

    /// Takes in the next record of the log: on the source it sets the row of its key, where the copy lacks the key and the
    /// record has no image before, or has it under a smaller LSN. The position is then its place. A row looked at is a step.
    ///
    /// After want of memory the image is dead, and a dead one finds none.
    pub fn apply<L: Ledger>(
        &mut self,
        place: u64,
        rec: &Rec,
        steps: &mut Steps<L>,
    ) -> Result<(), AllocError>
        requires fits { FitRecord place rec.now.body self.old }
        ensures ok { OnOk result (Becomes (LearnsRecord place rec.now.body) self.old self.new) }
        ensures err { OnErr result (self.new ≡ None) }
        ensures kept { steps.old ≤ steps.new }
        ensures bounded { steps.new ≤ steps.old + 1 }
    {
        let Some(mut parts) = self.living.take() else {
            return Err(AllocError);
        };
        parts.redo(self.alloc, place, rec, steps)?;
        self.living = Some(parts);
        Ok(())
    }

    /// The new tables: the split of the copy's rows. No record put them there, so each has LSN 0.
    pub fn into_tables(self) -> Result<Tables, AllocError>
        ensures { IfOk result (λ tables. IsSomeAnd self (λ parts. AreTablesOf parts tables)) }
    {
        let PartImage { living, alloc } = self;
        match living {
            Some(parts) => tables_of(alloc, parts),
            None => Err(AllocError),
        }
    }
}

// Both new tables, with the rows that no record put there.
fn tables_of(alloc: Global, parts: Parts) -> Result<Tables, AllocError>
    requires { IsParted parts }
    ensures { IfOk result (AreTablesOf parts) }
{
    let passing = unstamped(alloc, &parts.passing)?;
    let failing = unstamped(alloc, &parts.failing)?;
    let mut tables = Tables::new(alloc);
    tables.push(parts.yes.copy(alloc)?, passing)?;
    tables.push(parts.no.copy(alloc)?, failing)?;
    Ok(tables)
}

// A table of the same rows, each under LSN 0.
fn unstamped(alloc: Global, table: &Table) -> Result<Table, AllocError>
    ensures fresh { IfOk result (λ fresh. fresh ≡ fresh_table table.now.schema (bare_rows table.now.rows)) }
    ensures relation { IsRelation table.now }
{
    let schema = table.schema().copy(alloc)?;
    let rows = copies_of(alloc, uncounted::rows(alloc, table)?.as_slice())?;
    Table::of_rows(alloc, schema, rows, 0)
}

// Copies of rows, in their order.
fn copies_of(alloc: Global, rows: &[&Row]) -> Result<Rows, AllocError>
    ensures { IfOk result (λ copies. copies ≡ map (λ row. row.now) rows.now) }
{
    let mut copies = Rows::new(alloc);
    for row in rows {
        copies.push(row.copy(alloc)?)?;
    }
    Ok(copies)
}
