// What the manager reads, and what it makes of a key that it is asked for.
ghost use Rattle.std.specs.Prelude.{◌≡◌, ◌+◌, ◌≤◌, true, false, IfOk, OnErr, IsSome};
ghost use Rattle.std.specs.Option.{option_copied};
ghost use Rattle.sx_txn.specs.Managed.{OwnMeets, Unchanged, is_live, is_ending, schema_in};
ghost use Rattle.sx_txn.specs.Turns.{CanChange, FitsSchema, key_of_change};
ghost use Rattle.sx_txn.specs.Answers.{AnswersRead, read_of};
ghost use Rattle.sx_txn.specs.Patches.{IsThere, IsKeyOf};

use crate::patch::row_there;
use crate::{Change, Manager, TxnRead};
use std::alloc::{AllocError, Global};
use std::sync::ledger::Ledger;
use sx_heap::Table;
use sx_lists::Copied;
use sx_locks::{Asked, Mode};
use sx_steps::Steps;
use sx_values::{Key, Name, Row, Schema};

impl Manager {
    /// Reads the row of a key and locks the key, shared, to the transaction's end. Want of
    /// memory changes nothing.
    #[tactic(auto, using(crate::proofs::EventLemmas::tables_stay))]
    pub fn read<L: Ledger>(
        &mut self,
        txn: u64,
        table: &Name,
        key: &Key,
        steps: &mut Steps<L>,
    ) -> Result<TxnRead, AllocError>
        requires live { is_live self.old.living txn ≡ true }
        requires resting { is_ending self.old.living txn ≡ false }
        requires there { IsSome (schema_in self.old.shapes table.now) }
        ensures ok { IfOk result (AnswersRead self.old self.new txn table.now key.now) }
        ensures err { OnErr result (Unchanged self.old self.new) }
        ensures meets { OwnMeets self.old }
        ensures least { steps.old ≤ steps.new }
        ensures most { steps.new ≤ steps.old + 1 }
    {
        let (read, _) = self.read_twice(txn, table, key, steps)?;
        Ok(read)
    }

    /// The same, with its answer twice: to be kept, and to be told. Both are made before a lock is
    /// taken.
    #[tactic(auto, using(crate::proofs::EventLemmas::tables_stay))]
    pub fn read_twice<L: Ledger>(
        &mut self,
        txn: u64,
        table: &Name,
        key: &Key,
        steps: &mut Steps<L>,
    ) -> Result<(TxnRead, TxnRead), AllocError>
        requires live { is_live self.old.living txn ≡ true }
        requires resting { is_ending self.old.living txn ≡ false }
        requires there { IsSome (schema_in self.old.shapes table.now) }
        ensures ok { IfOk result (λ read. AnswersRead self.old self.new txn table.now key.now read.0) }
        ensures same { IfOk result (λ read. read.1 ≡ read.0) }
        ensures err { OnErr result (Unchanged self.old self.new) }
        ensures meets { OwnMeets self.old }
        ensures least { steps.old ≤ steps.new }
        ensures most { steps.new ≤ steps.old + 1 }
    {
        let row = self.row_found(table, key, steps)?;
        let told = row.copy(self.alloc)?;
        match self.locks.ask(txn, table, key, Mode::Shared)? {
            Asked::Held { by } => Ok((TxnRead::Held { by }, TxnRead::Held { by })),
            Asked::Granted => Ok((read_of(row), read_of(told))),
        }
    }

    /// The schema of a table, a declared or a new one, or None where there is no table of this name.
    pub fn schema(&self, table: &Name) -> Option<&Schema>
        ensures { option_copied result ≡ schema_in self.now.shapes table.now }
    {
        match self.tables.find(table) {
            Some(found) => Some(found.schema()),
            None => None,
        }
    }

    // The row that a key has, or None.
    pub(crate) fn row_found<L: Ledger>(
        &self,
        table: &Name,
        key: &Key,
        steps: &mut Steps<L>,
    ) -> Result<Option<Row>, AllocError>
        requires there { IsSome (schema_in self.now.shapes table.now) }
        ensures row { IfOk result (IsThere self.now table.now key.now) }
        ensures meets { OwnMeets self.now }
        ensures least { steps.old ≤ steps.new }
        ensures most { steps.new ≤ steps.old + 1 }
    {
        row_there(self.alloc, &self.tables, table, key, steps)
    }

    // The key that a change of a table is about.
    pub(crate) fn key_found(&self, table: &Name, change: &Change) -> Result<Key, AllocError>
        requires { CanChange self.now.shapes table.now change.now }
        ensures key { IfOk result (IsKeyOf self.now.shapes table.now change.now) }
        ensures meets { OwnMeets self.now }
    {
        match self.tables.find(table) {
            Some(found) => key_of_change(self.alloc, found, change),
            None => unreachable!(),
        }
    }
}

// The key that a change of this table is about.
fn key_of_change(alloc: Global, table: &Table, change: &Change) -> Result<Key, AllocError>
    requires { FitsSchema table.now.schema change.now }
    ensures { IfOk result (λ key. key_of_change table.now.schema change.now ≡ key) }
{
    match change {
        Change::Insert(row) => table.schema().key_of(alloc, row),
        Change::Replace(row) => table.schema().key_of(alloc, row),
        Change::Delete(key) => key.copy(alloc),
    }
}

// What a transaction reads where a key has this row, or none.
fn read_of(row: Option<Row>) -> TxnRead
    ensures { result ≡ read_of row }
{
    match row {
        Some(row) => TxnRead::Row { row },
        None => TxnRead::Absent,
    }
}
