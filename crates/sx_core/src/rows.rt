// Requests that read or write the row of a key.
ghost use Rattle.std.specs.Prelude.{◌≡◌, Some, None, IfOk, option_map};
ghost use Rattle.sx_model.specs.Leaves.{txn_of};
ghost use Rattle.sx_model.specs.Closed.{closed};
ghost use Rattle.sx_core.specs.Answers.{AnswersClient};
ghost use Rattle.sx_core.specs.Asked.{Comes, HasPlace, IsInside, asked_for};
ghost use Rattle.sx_core.specs.Refusals.{known_schema, key_refused, change_refused, change_fault, read_told, write_told};

use crate::{Core, CoreFault};
use std::alloc::{AllocError, Global};
use std::sync::ledger::Ledger;
use sx_journal::{Entry, Event, Reply, Request};
use sx_lists::Copied;
use sx_steps::Steps;
use sx_txn::{Change, TxnRead, TxnWrite};
use sx_values::{BadRow, Catalog, Key, Name, Row, Schema};

impl Core {
    // Reads the row of a key.
    pub(crate) fn read<L: Ledger>(
        &mut self,
        actor: u8,
        txn: u64,
        table: Name,
        key: Key,
        steps: &mut Steps<L>,
    ) -> Result<Reply, CoreFault>
        requires comes { Comes actor }
        requires place { HasPlace self.old }
        requires inside { IsInside self.old actor txn }
        ensures { AnswersClient self.old self.new actor (Request.Read table key) result }
    {
        match self.key_refusal(actor, txn, &table, &key) {
            Some(reply) => self.note(actor, Request::Read { table, key }, reply),
            None => self.read_there(actor, txn, table, key, steps),
        }
    }

    // Reads the row of a key that its table admits.
    fn read_there<L: Ledger>(
        &mut self,
        actor: u8,
        txn: u64,
        table: Name,
        key: Key,
        steps: &mut Steps<L>,
    ) -> Result<Reply, CoreFault>
        requires comes { Comes actor }
        requires place { HasPlace self.old }
        requires inside { IsInside self.old actor txn }
        requires admitted { key_refused (known_schema self.old table) (closed self.old.past actor table) key ≡ None }
        ensures { AnswersClient self.old self.new actor (Request.Read table key) result }
    {
        self.journal.reserve(self.clients.room_and(1))?;
        let (read, told) = self.manager.read_twice(txn, &table, &key, steps)?;
        self.journal.append(Entry {
            actor,
            event: Event::Client(Request::Read { table, key }),
            reply: read_told(read),
        });
        Ok(read_told(told))
    }

    // Changes the row of a key.
    pub(crate) fn write<L: Ledger>(
        &mut self,
        actor: u8,
        txn: u64,
        table: Name,
        change: Change,
        steps: &mut Steps<L>,
    ) -> Result<Reply, CoreFault>
        requires comes { Comes actor }
        requires place { HasPlace self.old }
        requires inside { IsInside self.old actor txn }
        ensures { AnswersClient self.old self.new actor (asked_for table change) result }
    {
        match self.change_refusal(actor, txn, &table, &change) {
            Some(reply) => self.note(actor, asked_for(table, change), reply),
            None => self.write_there(actor, txn, table, change, steps),
        }
    }

    // Makes a change that its table admits, if the locks and the row of its key allow it.
    fn write_there<L: Ledger>(
        &mut self,
        actor: u8,
        txn: u64,
        table: Name,
        change: Change,
        steps: &mut Steps<L>,
    ) -> Result<Reply, CoreFault>
        requires comes { Comes actor }
        requires place { HasPlace self.old }
        requires inside { IsInside self.old actor txn }
        requires admitted { change_refused (known_schema self.old table) (closed self.old.past actor table) change ≡ None }
        ensures { AnswersClient self.old self.new actor (asked_for table change) result }
    {
        let asked = change.copy(self.alloc)?;
        self.journal.reserve(self.clients.room_and(1))?;
        let answer = self.manager.write(txn, &table, change, steps)?;
        self.journal.append(Entry {
            actor,
            event: Event::Client(asked_for(table, asked)),
            reply: write_told(answer),
        });
        Ok(write_told(answer))
    }

    // What a client's transaction is refused for a key: by its table's name, since the table is closed, or by its schema.
    fn key_refusal(&self, actor: u8, txn: u64, table: &Name, key: &Key) -> Option<Reply>
        requires inside { txn_of self.now.past actor ≡ Some txn }
        ensures { result ≡ key_refused (known_schema self.now table.now) (closed self.now.past actor table.now) key.now }
    {
        let Some(schema) = self.known.schema(table) else {
            return Some(Reply::NoTable);
        };
        match self.closed(actor, txn, table) {
            Some(refusal) => Some(refusal),
            None => bad_row(schema.admits_key(key).err()),
        }
    }

    // The same of a change.
    fn change_refusal(&self, actor: u8, txn: u64, table: &Name, change: &Change) -> Option<Reply>
        requires inside { txn_of self.now.past actor ≡ Some txn }
        ensures { result ≡ change_refused (known_schema self.now table.now) (closed self.now.past actor table.now) change.now }
    {
        let Some(schema) = self.known.schema(table) else {
            return Some(Reply::NoTable);
        };
        match self.closed(actor, txn, table) {
            Some(refusal) => Some(refusal),
            None => bad_row(change_fault(schema, change)),
        }
    }
}

// The refusal of a row or key with this fault.
fn bad_row(fault: Option<BadRow>) -> Option<Reply>
    ensures { result ≡ option_map Reply.BadRow fault }
{
    match fault {
        Some(bad) => Some(Reply::BadRow { bad }),
        None => None,
    }
}

// Why a schema doesn't admit a change.
fn change_fault(schema: &Schema, change: &Change) -> Option<BadRow>
    ensures { result ≡ change_fault schema.now change.now }
{
    match change {
        Change::Insert(row) | Change::Replace(row) => schema.admits(row).err(),
        Change::Delete(key) => schema.admits_key(key).err(),
    }
}

// The request that asks for a change of a table.
fn asked_for(table: Name, change: Change) -> Request
    ensures { result ≡ asked_for table change }
{
    match change {
        Change::Insert(row) => Request::Insert { table, row },
        Change::Replace(row) => Request::Update { table, row },
        Change::Delete(key) => Request::Delete { table, key },
    }
}

// What the manager's answer to a read tells.
fn read_told(read: TxnRead) -> Reply
    ensures { result ≡ read_told read }
{
    match read {
        TxnRead::Row { row } => Reply::Row { row },
        TxnRead::Absent => Reply::Absent,
        TxnRead::Held { by } => Reply::Held { by },
    }
}

// What the manager's answer to a change tells.
fn write_told(answer: TxnWrite) -> Reply
    ensures { result ≡ write_told answer }
{
    match answer {
        TxnWrite::Done { lsn } => Reply::Done { lsn },
        TxnWrite::Held { by } => Reply::Held { by },
        TxnWrite::Exists => Reply::Exists,
        TxnWrite::Missing => Reply::Missing,
    }
}
