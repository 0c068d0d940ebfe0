// Both new tables, and the steps by which they learn.
ghost use Rattle.std.specs.Prelude.{◌≡◌, ◌+◌, ◌≤◌, [], None, Some, IsOk, IfOk, OnOk, OnErr, IsSome, is_some};
ghost use Rattle.std.specs.List.{AllByRecursion};
ghost use Rattle.sx_values.specs.Layouts.{Admits, key_of};
ghost use Rattle.sx_heap.specs.Relations.{IsRowOf, SetsRow, row_at};
ghost use Rattle.sx_log.specs.Copies.{after_reading, redo};
ghost use Rattle.sx_part.specs.PartImages.{IsParted, IsMadeFor, IsEmptyAt, SetsKey, LearnsReadings, LearnsRecord, FitsNext, FitsTable, FollowsChange, image_at, schema_in, belongs};
ghost use Rattle.sx_part.specs.Stamping.{AreStamps};

use crate::stamps::Stamps;
use std::alloc::{AllocError, Global};
use std::sync::ledger::Ledger;
use sx_copy::{Change, change_of};
use sx_heap::{Seen, Table};
use sx_lists::Copied;
use sx_log::Rec;
use sx_ops::{Tests, passes};
use sx_steps::Steps;
use sx_values::{Key, Name, Row};

// The split, the rows of its copy in both new tables, and the place in the log up to which the copy has come.
#[derive(Drop)]
pub(crate) struct Parts {
    pub(crate) source: Name,
    pub(crate) tests: Tests,
    pub(crate) yes: Name,
    pub(crate) no: Name,
    pub(crate) passing: Table,
    pub(crate) failing: Table,
    pub(crate) position: u64,
}

impl Parts {
    // Merges readings in their order. After want of memory nothing is said of the image.
    pub(crate) fn learn_all<L: Ledger>(
        &mut self,
        alloc: Global,
        seen: &[Seen],
        steps: &mut Steps<L>,
    ) -> Result<(), AllocError>
        requires parted { IsParted self.old }
        requires fits { AllByRecursion (IsRowOf (schema_in self.old)) seen.now }
        ensures learns { OnOk result (LearnsReadings seen.now self.old self.new) }
        ensures parted { OnOk result (IsParted self.new) }
    {
        for reading in seen {
            self.learn(alloc, reading, steps)?;
        }
        Ok(())
    }

    // Merges a reading.
    fn learn<L: Ledger>(
        &mut self,
        alloc: Global,
        seen: &Seen,
        steps: &mut Steps<L>,
    ) -> Result<(), AllocError>
        requires parted { IsParted self.old }
        requires fits { IsRowOf (schema_in self.old) seen.now }
        ensures sets { OnOk result (SetsKey seen.now.key (after_reading (seen.now.row, seen.now.lsn) (image_at self.old seen.now.key)) self.old self.new) }
        ensures parted { OnOk result (IsParted self.new) }
    {
        let stamps = self.stamps(&seen.key, steps);
        if !stamps.take(seen.lsn, true) {
            return Ok(());
        }
        let row = seen.row.copy(alloc)?;
        self.set(alloc, stamps, &seen.key, row, seen.lsn)
    }

    // Takes in the next record.
    pub(crate) fn redo<L: Ledger>(
        &mut self,
        alloc: Global,
        place: u64,
        rec: &Rec,
        steps: &mut Steps<L>,
    ) -> Result<(), AllocError>
        requires parted { IsParted self.old }
        requires fits { FitsNext place rec.now.body self.old }
        ensures learns { OnOk result (LearnsRecord place rec.now.body self.old self.new) }
        ensures parted { OnOk result (IsParted self.new) }
        ensures kept { steps.old ≤ steps.new }
        ensures bounded { steps.new ≤ steps.old + 1 }
    {
        if let Some(change) = change_of(place, &rec.body) {
            self.follow(alloc, &change, steps)?;
        }
        self.position = place;
        Ok(())
    }

    // Takes in a change, if it is one of the source.
    fn follow<L: Ledger>(
        &mut self,
        alloc: Global,
        change: &Change<'_>,
        steps: &mut Steps<L>,
    ) -> Result<(), AllocError>
        requires parted { IsParted self.old }
        requires fits { FitsTable (schema_in self.old) self.old.source change.now.table.now change.now.key.now change.now.before.now change.now.after.now }
        ensures sets { OnOk result (FollowsChange change.now self.old self.new) }
        ensures parted { OnOk result (IsParted self.new) }
        ensures kept { steps.old ≤ steps.new }
        ensures bounded { steps.new ≤ steps.old + 1 }
    {
        if *change.table != self.source {
            return Ok(());
        }
        let stamps = self.stamps(change.key, steps);
        if !stamps.take(change.lsn, change.before.is_none()) {
            return Ok(());
        }
        match change.after {
            Some(row) => {
                let row = row.copy(alloc)?;
                self.set(alloc, stamps, change.key, row, change.lsn)
            }
            None => self.clear(stamps, change.key),
        }
    }

    // Where the image has a key. A row that is found is a step.
    fn stamps<L: Ledger>(&self, key: &Key, steps: &mut Steps<L>) -> Stamps
        requires { IsParted self.now }
        ensures stamps { AreStamps self.now key.now result }
        ensures kept { steps.old ≤ steps.new }
        ensures bounded { steps.new ≤ steps.old + 1 }
    {
        if let Some((_, lsn)) = self.passing.get(key, steps) {
            return Stamps {
                passing: Some(lsn),
                failing: None,
            };
        }
        Stamps {
            passing: None,
            failing: self.failing.get(key, steps).map(|(_, lsn)| lsn),
        }
    }

    // Puts a row at its key, in the table to which it belongs.
    fn set(
        &mut self,
        alloc: Global,
        stamps: Stamps,
        key: &Key,
        row: Row,
        lsn: u64,
    ) -> Result<(), AllocError>
        requires parted { IsParted self.old }
        requires stamps { AreStamps self.old key.now stamps }
        requires admitted { Admits (schema_in self.old) row }
        requires keyed { key.now ≡ key_of (schema_in self.old) row }
        ensures sets { OnOk result (SetsKey key.now (Some (row, lsn)) self.old self.new) }
        ensures parted { OnOk result (IsParted self.new) }
    {
        let key_there = key.copy(alloc)?;
        if passes(
            self.passing.schema().columns(),
            self.tests.as_slice(),
            row.as_slice(),
        ) {
            self.passing.put(key_there, row, lsn)?;
            take_out(&mut self.failing, stamps.failing.is_some(), key)
        } else {
            self.failing.put(key_there, row, lsn)?;
            take_out(&mut self.passing, stamps.passing.is_some(), key)
        }
    }

    // Takes the row of a key out of the table that has it, if one does.
    fn clear(&mut self, stamps: Stamps, key: &Key) -> Result<(), AllocError>
        requires parted { IsParted self.old }
        requires stamps { AreStamps self.old key.now stamps }
        ensures sets { OnOk result (SetsKey key.now None self.old self.new) }
        ensures parted { OnOk result (IsParted self.new) }
    {
        take_out(&mut self.passing, stamps.passing.is_some(), key)?;
        take_out(&mut self.failing, stamps.failing.is_some(), key)
    }
}

// Takes the row of a key out of a table, if it is there.
fn take_out(table: &mut Table, there: bool, key: &Key) -> Result<(), AllocError>
    requires { there ≡ is_some (row_at table.old.rows key.now) }
    ensures { OnOk result (SetsRow table.old table.new key.now None) }
{
    if there {
        table.remove(key)?;
    }
    Ok(())
}
