// A table: its rows by key.
ghost use Rattle.std.specs.Prelude.{◌≡◌, ◌==◌, ◌+◌, ◌≤◌, [], Some, None, not, length, map, option_map, take, drop, IfOk, OnOk, OnErr, IsOk, IsSome, IsTrue, is_some, if◌then◌else◌};
ghost use Rattle.std.specs.List.{AllByRecursion};
ghost use Rattle.std.specs.List.Sorted.{IsStrictlySortedBy};
ghost use Rattle.sx_values.specs.Values.{values_cmp};
ghost use Rattle.sx_values.specs.Layouts.{Admits, key_of};
ghost use Rattle.sx_heap.specs.Relations.{IsRelation, SetsRow, row_at, seen_under};
ghost use Rattle.sx_heap.specs.Walks.{WalksOn};
ghost use Rattle.sx_heap.specs.Entries.{seen_of, rows_of, entry_under};

use crate::{Cursor, Seen, Seens, Walked};
use std::alloc::{AllocError, Global};
use std::collections::BTreeMap;
use std::collections::btree_map::Range;
use std::marker::Model;
use std::ops::Bound;
use std::sync::ledger::Ledger;
use sx_lists::{Copied, List};
use sx_steps::Steps;
use sx_values::{Key, Row, Schema};

// A row, and the LSN of the record that put it there.
#[derive(Drop)]
struct Stamped {
    row: Row,
    lsn: u64,
}

/// The rows of a table, with their LSNs. Each row that a call hands out is a step.
#[derive(Drop)]
pub struct Table {
    schema: Schema,
    rows: BTreeMap<Key, Stamped>,
    alloc: Global,
}

impl Model for Table {
    ghost use Rattle.sx_heap.specs.Relations.{Relation, IsRelation};

    ghost Value = { Relation };

    ghost use Rattle.sx_heap.specs.Entries.{rows_of};

    ghost view = { λ t. record { schema = t.schema; rows = rows_of t.rows.entries } };

    ghost invariant = { λ t. IsRelation (record { schema = t.schema; rows = rows_of t.rows.entries }) };
}

impl Table {
    /// A table without rows.
    pub fn new(alloc: Global, schema: Schema) -> Table
        ensures schema { result.schema ≡ schema }
        ensures empty { result.rows ≡ [] }
    {
        Table {
            schema,
            rows: BTreeMap::new(alloc),
            alloc,
        }
    }

    /// A table with these rows, which the schema admits and whose keys come in strict order, all under one LSN.
    pub fn of_rows(
        alloc: Global,
        schema: Schema,
        rows: List<Row>,
        lsn: u64,
    ) -> Result<Table, AllocError>
        requires admitted { AllByRecursion (Admits schema) rows }
        requires in_order { IsStrictlySortedBy values_cmp (map (key_of schema) rows) }
        ensures { IfOk result (λ table. table ≡ record { schema = schema; rows = map (seen_under schema lsn) rows }) }
    {
        let entries = entries_of(alloc, &schema, rows, lsn)?;
        let rows = BTreeMap::from_iter(alloc, entries)?;
        Ok(Table {
            schema,
            rows,
            alloc,
        })
    }

    /// The schema that admits the rows.
    pub fn schema(&self) -> &Schema
        ensures schema { result.now ≡ self.now.schema }
        ensures relation { IsRelation self.now }
    {
        &self.schema
    }

    /// How many rows there are.
    pub fn len(&self) -> u64
        ensures len { result ≡ length self.now.rows }
        ensures relation { IsRelation self.now }
    {
        self.rows.len() as u64
    }

    /// Whether there is no row.
    pub fn is_empty(&self) -> bool
        ensures { result ≡ (length self.now.rows == 0) }
    {
        self.rows.is_empty()
    }

    /// The row of a key and its LSN, or None where the key is absent.
    pub fn get<L: Ledger>(&self, key: &Key, steps: &mut Steps<L>) -> Option<(&Row, u64)>
        ensures found { option_map (λ found. (found.0.now, found.1)) result ≡ row_at self.now.rows key.now }
        ensures counted { steps.new ≡ (if is_some result then steps.old + 1 else steps.old) }
        ensures relation { IsRelation self.now }
    {
        if is_behind_all(&self.rows, key) {
            return None;
        }
        match self.rows.get(key) {
            Some(stamped) => Some(stamped.handed_out(steps)),
            None => None,
        }
    }

    /// Puts in a row whose key is absent. Want of memory changes nothing.
    pub fn insert(&mut self, row: Row, lsn: u64) -> Result<(), AllocError>
        requires admitted { Admits self.old.schema row }
        requires absent { row_at self.old.rows (key_of self.old.schema row) ≡ None }
        ensures ok { OnOk result (SetsRow self.old self.new (key_of self.old.schema row) (Some (row, lsn))) }
        ensures err { OnErr result (self.new ≡ self.old) }
    {
        let key = self.schema.key_of(self.alloc, &row)?;
        self.put(key, row, lsn)?;
        Ok(())
    }

    /// Puts a row at its key, where another row goes if one is there, and answers whether the key was absent. Want of memory
    /// changes nothing.
    pub fn put(&mut self, key: Key, row: Row, lsn: u64) -> Result<bool, AllocError>
        requires admitted { Admits self.old.schema row }
        requires keyed { key ≡ key_of self.old.schema row }
        ensures absent { IfOk result (λ absent. absent ≡ not (is_some (row_at self.old.rows key))) }
        ensures ok { OnOk result (SetsRow self.old self.new key (Some (row, lsn))) }
        ensures err { OnErr result (self.new ≡ self.old) }
    {
        let was = self.rows.insert(key, Stamped { row, lsn })?;
        Ok(was.is_none())
    }

    /// Puts a row in the place of that of its key. Want of memory changes nothing.
    pub fn replace(&mut self, row: Row, lsn: u64) -> Result<(), AllocError>
        requires admitted { Admits self.old.schema row }
        requires there { IsSome (row_at self.old.rows (key_of self.old.schema row)) }
        ensures ok { OnOk result (SetsRow self.old self.new (key_of self.old.schema row) (Some (row, lsn))) }
        ensures err { OnErr result (self.new ≡ self.old) }
    {
        let key = self.schema.key_of(self.alloc, &row)?;
        self.rewrite(&key, row, lsn);
        Ok(())
    }

    /// Puts a row in the place of that of its key. It takes no memory.
    pub fn rewrite(&mut self, key: &Key, row: Row, lsn: u64)
        requires admitted { Admits self.old.schema row }
        requires keyed { key.now ≡ key_of self.old.schema row }
        requires there { IsSome (row_at self.old.rows key.now) }
        ensures { SetsRow self.old self.new key.now (Some (row, lsn)) }
    {
        match self.rows.get_mut(key) {
            Some(stamped) => *stamped = Stamped { row, lsn },
            None => unreachable!(),
        }
    }

    /// Takes out the row of a key. It takes no memory, so it is always done.
    pub fn remove(&mut self, key: &Key) -> Result<(), AllocError>
        requires { IsSome (row_at self.old.rows key.now) }
        ensures done { IsOk result }
        ensures ok { OnOk result (SetsRow self.old self.new key.now None) }
        ensures err { OnErr result (self.new ≡ self.old) }
    {
        self.rows.remove(key);
        Ok(())
    }

    /// The next `n` rows behind the cursor, in key order, or all of them where they are fewer.
    pub fn walk<L: Ledger>(
        &self,
        alloc: Global,
        cursor: Cursor,
        n: u64,
        steps: &mut Steps<L>,
    ) -> Result<Walked, AllocError>
        ensures walked { IfOk result (WalksOn self.now.rows cursor n) }
        ensures counted { IfOk result (λ walked. steps.new ≡ steps.old + length walked.seen) }
        ensures kept { steps.old ≤ steps.new }
        ensures bounded { steps.new ≤ steps.old + n }
        ensures relation { IsRelation self.now }
    {
        let mut ahead = self.rows.range((cursor.bound(), Bound::Unbounded));
        let seen = next_rows(alloc, &mut ahead, n, steps)?;
        let over = ahead.next().is_none();
        let next = cursor.moved_past(alloc, seen.as_slice())?;
        Ok(Walked { seen, next, over })
    }

    /// The rows where they stand, in key order.
    pub fn rows<L: Ledger>(
        &self,
        alloc: Global,
        steps: &mut Steps<L>,
    ) -> Result<Vec<&Row>, AllocError>
        ensures rows { IfOk result (λ rows. map (λ row. row.now) rows.items ≡ map (λ seen. seen.row) self.now.rows) }
        ensures counted { OnOk result (steps.new ≡ steps.old + length self.now.rows) }
        ensures kept { steps.old ≤ steps.new }
        ensures bounded { steps.new ≤ steps.old + length self.now.rows }
        ensures relation { IsRelation self.now }
    {
        let mut rows = Vec::new(alloc);
        for stamped in self.rows.values() {
            let (row, _) = stamped.handed_out(steps);
            rows.push(row)?;
        }
        Ok(rows)
    }
}

impl Stamped {
    // The row and its LSN. No other function hands them out, so each row handed out is counted.
    fn handed_out<L: Ledger>(&self, steps: &mut Steps<L>) -> (&Row, u64)
        ensures row { result.0.now ≡ self.now.row }
        ensures lsn { result.1 ≡ self.now.lsn }
        ensures counted { steps.new ≡ steps.old + 1 }
    {
        steps.tick();
        (&self.row, self.lsn)
    }

    // The row as it is seen at a key.
    fn seen_at<L: Ledger>(
        &self,
        alloc: Global,
        key: &Key,
        steps: &mut Steps<L>,
    ) -> Result<Seen, AllocError>
        ensures seen { IfOk result (λ seen. seen ≡ seen_of (key.now, self.now)) }
        ensures counted { steps.new ≡ steps.old + 1 }
    {
        let (row, lsn) = self.handed_out(steps);
        let key = key.copy(alloc)?;
        let row = row.copy(alloc)?;
        Ok(Seen { key, row, lsn })
    }
}

// Whether a key stands behind all that are there. So do those of rows that come in key order, for which a search would
// compare the key with most of those on its way.
fn is_behind_all(rows: &BTreeMap<Key, Stamped>, key: &Key) -> bool
    ensures { IsTrue result → row_at (rows_of rows.now.entries) key.now ≡ None }
{
    match rows.last_key_value() {
        Some((last, _)) => last.cmp(key).is_lt(),
        None => false,
    }
}

// Rows with their keys and an LSN, in their order.
fn entries_of(
    alloc: Global,
    schema: &Schema,
    rows: List<Row>,
    lsn: u64,
) -> Result<Vec<(Key, Stamped)>, AllocError>
    requires { AllByRecursion (Admits schema.now) rows }
    ensures { IfOk result (λ entries. entries.items ≡ map (entry_under schema.now lsn) rows) }
{
    let mut entries = Vec::new(alloc);
    for row in rows.into_vec() {
        let key = schema.key_of(alloc, &row)?;
        entries.push((key, Stamped { row, lsn }))?;
    }
    Ok(entries)
}

// The next rows of those ahead, at most `n`.
fn next_rows<L: Ledger>(
    alloc: Global,
    ahead: &mut Range<'_, Key, Stamped>,
    n: u64,
    steps: &mut Steps<L>,
) -> Result<Seens, AllocError>
    ensures seen { IfOk result (λ seen. seen ≡ rows_of (take n ahead.old)) }
    ensures left { OnOk result (ahead.new ≡ drop n ahead.old) }
    ensures counted { IfOk result (λ seen. steps.new ≡ steps.old + length seen) }
    ensures kept { steps.old ≤ steps.new }
    ensures bounded { steps.new ≤ steps.old + n }
{
    let mut seen = List::new(alloc);
    for _turn in 0..n {
        match ahead.next() {
            Some((key, stamped)) => seen.push(stamped.seen_at(alloc, key, steps)?)?,
            None => return Ok(seen),
        }
    }
    Ok(seen)
}
