// The copy as one list: per side and key the row last learnt, with its LSN.
ghost use Rattle.std.specs.Prelude.{◌≡◌, ◌+◌, ◌<◌, ◌≤◌, not, true, [], ◌∷◌, Some, None, filter, option_map, IfOk, OnOk, OnErr, IfSome, vec_len, vec_capacity};
ghost use Rattle.std.specs.Option.{option_copied};
ghost use Rattle.sx_log.specs.Copies.{after_reading};
ghost use Rattle.sx_log.specs.State.{stored};
ghost use Rattle.sx_ops.specs.Operators.{sources_of};
ghost use Rattle.sx_copy.specs.CopyLists.{is_at, copy_at, SetsKey, Merges, MergesSome, Redoes};
ghost use Rattle.sx_copy.specs.Changes.{behind, behind_own, takes, is_changed, brought, stepped, IsRowAt, Brings, RedoesChange, AreSides};

use crate::change::{Change, change_of};
use std::alloc::{AllocError, Global};
use std::marker::Model;
use sx_heap::{Seen, Seens};
use sx_lists::Copied;
use sx_log::Rec;
use sx_ops::Spec;
use sx_values::{Key, Name, Row};

/// A row of the copy: the side of its table, its key, and the LSN under which it was learnt.
#[derive(Debug, Drop)]
pub struct CopyRow {
    pub side: u8,
    pub key: Key,
    pub row: Row,
    pub lsn: u64,
}

/// The copy of a transformation's sources.
#[derive(Drop)]
pub struct CopyList {
    rows: Vec<CopyRow>,
    alloc: Global,
}

impl Model for CopyList {
    ghost use Rattle.std.specs.Prelude.{List};
    ghost use Rattle.sx_copy.specs.declared.list.CopyRow.{CopyRow};

    ghost Value = { List CopyRow };

    ghost view = { λ c. c.rows.items };
}

// What a change makes of a key of one side: it stays, or it has now this row or none.
#[derive(Drop)]
pub(crate) enum Step {
    Keep,
    Take(Option<CopyRow>),
}

impl CopyRow {
    // Whether it is the row of this key of this side.
    fn is_at(&self, side: u8, key: &Key) -> bool
        ensures { result ≡ is_at side key.now self.now }
    {
        self.side == side && self.key == *key
    }
}

impl CopyList {
    /// The copy before the scan's first turn.
    pub fn new(alloc: Global) -> CopyList
        ensures { result ≡ [] }
    {
        CopyList {
            rows: Vec::new(alloc),
            alloc,
        }
    }

    // The rows that were learnt, of both sides.
    fn as_slice(&self) -> &[CopyRow]
        ensures { result.now ≡ self.now }
    {
        &self.rows
    }

    /// The row of a key of a side and its LSN, or None where the copy lacks the key.
    pub fn get(&self, side: u8, key: &Key) -> Option<(&Row, u64)>
        ensures { option_map (λ found. (found.0.now, found.1)) result ≡ copy_at self.now side key.now }
    {
        for row in self.as_slice() {
            if row.is_at(side, key) {
                return Some((&row.row, row.lsn));
            }
        }
        None
    }

    /// Merges the readings of a scan turn of a side, each where the copy lacks the key or has it under a smaller LSN.
    ///
    /// After want of memory the readings before some place are merged.
    pub fn merge_scan(&mut self, side: u8, seen: &Seens) -> Result<(), AllocError>
        ensures ok { OnOk result (Merges side seen.now self.old self.new) }
        ensures err { OnErr result (MergesSome side seen.now self.old self.new) }
    {
        for reading in seen.as_slice() {
            self.learn(side, reading)?;
        }
        Ok(())
    }

    /// Takes in the record of this LSN: on a source of the transformation it sets the row of its key, where the copy lacks the
    /// key and the record has no image before, or has it under a smaller LSN. Want of memory changes nothing.
    pub fn apply_record(&mut self, spec: &Spec, lsn: u64, rec: &Rec) -> Result<(), AllocError>
        ensures ok { OnOk result (Redoes spec.now lsn rec.now self.old self.new) }
        ensures err { OnErr result (self.new ≡ self.old) }
    {
        match change_of(lsn, &rec.body) {
            Some(change) => self.redo(spec, &change),
            None => Ok(()),
        }
    }

    // Merges a reading of a side.
    fn learn(&mut self, side: u8, seen: &Seen) -> Result<(), AllocError>
        ensures ok { OnOk result (SetsKey side seen.now.key (after_reading (seen.now.row, seen.now.lsn) (copy_at self.old side seen.now.key)) self.old self.new) }
        ensures err { OnErr result (self.new ≡ self.old) }
    {
        if self.takes(side, &seen.key, seen.lsn, true) {
            let row = copy_row(self.alloc, side, &seen.key, &seen.row, seen.lsn)?;
            self.rows.reserve(1)?;
            take(&mut self.rows, side, &seen.key, Step::Take(Some(row)));
        }
        Ok(())
    }

    // Takes in a change, on each side that has its table.
    fn redo(&mut self, spec: &Spec, change: &Change<'_>) -> Result<(), AllocError>
        ensures ok { OnOk result (RedoesChange spec.now change.now self.old self.new) }
        ensures err { OnErr result (self.new ≡ self.old) }
    {
        let (first, second) = sources_of(spec);
        let on_first = self.step(0, Some(first), change)?;
        let on_second = self.step(1, second, change)?;
        self.rows.reserve(2)?;
        take(&mut self.rows, 0, change.key, on_first);
        take(&mut self.rows, 1, change.key, on_second);
        Ok(())
    }

    // What a change makes of its key on a side, which may have no table.
    fn step(&self, side: u8, table: Option<&Name>, change: &Change<'_>) -> Result<Step, AllocError>
        ensures stepped { IfOk result (λ step. stepped step (copy_at self.now side change.now.key.now)
            ≡ behind_own change.now (option_copied table.entry) (copy_at self.now side change.now.key.now)) }
        ensures brings { IfOk result (Brings side change.now.key.now) }
    {
        let Some(table) = table else {
            return Ok(Step::Keep);
        };
        if !self.is_changed(side, table, change) {
            return Ok(Step::Keep);
        }
        Ok(Step::Take(row_behind(self.alloc, side, change)?))
    }

    // Whether a change is taken on a side of this table.
    fn is_changed(&self, side: u8, table: &Name, change: &Change<'_>) -> bool
        ensures { result ≡ is_changed change.now table.now (copy_at self.now side change.now.key.now) }
    {
        let where_absent = change.before.is_none();
        *change.table == *table && self.takes(side, change.key, change.lsn, where_absent)
    }

    // Whether the copy takes a row under this LSN: where it lacks the key, as told.
    fn takes(&self, side: u8, key: &Key, lsn: u64, where_absent: bool) -> bool
        ensures { result ≡ takes lsn where_absent (copy_at self.now side key.now) }
    {
        match self.get(side, key) {
            Some((_, known)) => known < lsn,
            None => where_absent,
        }
    }
}

// The row that a key of a side has behind a change, if it has one.
fn row_behind(alloc: Global, side: u8, change: &Change<'_>) -> Result<Option<CopyRow>, AllocError>
    ensures brought { IfOk result (λ row. brought row ≡ stored change.now.lsn change.now.after.now) }
    ensures is_row { IfOk result (IsRowAt side change.now.key.now) }
{
    match change.after {
        Some(row) => Ok(Some(copy_row(alloc, side, change.key, row, change.lsn)?)),
        None => Ok(None),
    }
}

// The tables of both sides; the second where there is one.
fn sources_of(spec: &Spec) -> (&Name, Option<&Name>)
    ensures { AreSides (sources_of spec.now) result.0.now (option_copied result.1) }
{
    match spec {
        Spec::Join { left, right, .. } | Spec::Union { left, right, .. } => (left, Some(right)),
        Spec::Split { table, .. } | Spec::Part { table, .. } => (table, None),
    }
}

// A row of the copy, of these parts.
#[tactic(auto, using(crate::proofs::CopyLemmas::own_place))]
fn copy_row(alloc: Global, side: u8, key: &Key, row: &Row, lsn: u64) -> Result<CopyRow, AllocError>
    ensures row { IfOk result (λ copy. copy ≡ record { side = side; key = key.now; row = row.now; lsn = lsn }) }
    ensures is_row { IfOk result (λ copy. is_at side key.now copy ≡ true) }
{
    let key = key.copy(alloc)?;
    let row = row.copy(alloc)?;
    Ok(CopyRow {
        side,
        key,
        row,
        lsn,
    })
}

// Does a step at a key. It takes no memory: there is room for its row.
fn take(rows: &mut Vec<CopyRow>, side: u8, key: &Key, step: Step)
    requires brings { Brings side key.now step }
    requires room { vec_len rows.old < vec_capacity rows.old }
    ensures sets { SetsKey side key.now (stepped step (copy_at rows.old.items side key.now)) rows.old.items rows.new.items }
    ensures len { vec_len rows.new ≤ vec_len rows.old + 1 }
    ensures capacity { vec_capacity rows.new ≡ vec_capacity rows.old }
{
    match step {
        Step::Keep => (),
        Step::Take(row) => put(rows, side, key, row),
    }
}

// Puts a row, if any, in the place of that of its key. It takes no memory: there is room for it.
fn put(rows: &mut Vec<CopyRow>, side: u8, key: &Key, row: Option<CopyRow>)
    requires is_row { IsRowAt side key.now row }
    requires room { vec_len rows.old < vec_capacity rows.old }
    ensures sets { SetsKey side key.now (brought row) rows.old.items rows.new.items }
    ensures len { vec_len rows.new ≤ vec_len rows.old + 1 }
    ensures capacity { vec_capacity rows.new ≡ vec_capacity rows.old }
{
    rows.retain(|row| !row.is_at(side, key));
    if let Some(row) = row {
        rows.push_reserved(row);
    }
}
