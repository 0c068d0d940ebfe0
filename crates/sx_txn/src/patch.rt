// Changes of the rows of tables, with the locks that they take.
ghost use Rattle.std.specs.Prelude.{◌≡◌, ◌+◌, ◌≤◌, None, IfOk, OnOk, OnErr, IsOk, IsSome, IfSome, IsSomeAnd};
ghost use Rattle.sx_heap.specs.Relations.{row_at};
ghost use Rattle.sx_heap.specs.NamedTables.{AreNamedApart, table_named};
ghost use Rattle.sx_locks.specs.Locks.{AnswersAsk, SameLocks};
ghost use Rattle.sx_locks.specs.declared.mode.Mode.TheVariants.{Exclusive};
ghost use Rattle.sx_txn.specs.Answers.{refusal};
ghost use Rattle.sx_txn.specs.Turns.{image_of};
ghost use Rattle.sx_txn.specs.Patches.{write_of, undo_of, HasRow, TakesPatch, HasImage, Patched, PutsWhere};
ghost use Rattle.sx_txn.specs.Managed.{SameTables};

use crate::homes::Homes;
use crate::{Change, TxnWrite};
use std::alloc::{AllocError, Global};
use std::sync::ledger::Ledger;
use sx_lists::Copied;
use sx_locks::{Asked, LockTable, Mode};
use sx_log::{Body, Rec};
use sx_steps::Steps;
use sx_values::{Key, Name, Row};

// A change of the row of one key: what the key has, and what it is to have.
#[derive(Drop)]
pub(crate) struct Patch {
    pub(crate) table: Name,
    pub(crate) key: Key,
    pub(crate) before: Option<Row>,
    pub(crate) after: Option<Row>,
}

impl Patch {
    // The record of a transaction's write that makes this change.
    pub(crate) fn into_write(self, txn: u64) -> Rec
        ensures { result ≡ write_of txn self }
    {
        let Patch {
            table,
            key,
            before,
            after,
        } = self;
        let body = Body::Write {
            table,
            key,
            before,
            after,
        };
        Rec { txn, body }
    }

    // The record of a transaction's undo of the write with this LSN that makes this change.
    pub(crate) fn into_undo(self, txn: u64, undoes: u64) -> Rec
        ensures { result ≡ undo_of txn undoes self }
    {
        let Patch {
            table,
            key,
            before,
            after,
        } = self;
        let body = Body::Undo {
            undoes,
            table,
            key,
            before,
            after,
        };
        Rec { txn, body }
    }
}

// A copy of the row that a key has in the table of a name, or None.
pub(crate) fn row_there<L: Ledger>(
    alloc: Global,
    tables: &Homes,
    name: &Name,
    key: &Key,
    steps: &mut Steps<L>,
) -> Result<Option<Row>, AllocError>
    requires { IsSome (table_named tables.now.all name.now) }
    ensures row { IfOk result (λ row. IsSomeAnd (table_named tables.now.all name.now) (HasRow key.now row)) }
    ensures apart { AreNamedApart tables.now.all }
    ensures least { steps.old ≤ steps.new }
    ensures most { steps.new ≤ steps.old + 1 }
{
    let Some(table) = tables.find(name) else {
        unreachable!()
    };
    match table.get(key, steps) {
        None => Ok(None),
        Some((row, _)) => Ok(Some(row.copy(alloc)?)),
    }
}

// Why a change is refused, by what its key has, or None.
pub(crate) fn refusal_of(change: &Change, before: &Option<Row>) -> Option<TxnWrite>
    ensures { result ≡ refusal change.now before.now }
{
    match (change, before) {
        (Change::Insert(_), Some(_)) => Some(TxnWrite::Exists),
        (Change::Insert(_), None) => None,
        (Change::Replace(_), Some(_)) => None,
        (Change::Replace(_), None) => Some(TxnWrite::Missing),
        (Change::Delete(_), Some(_)) => None,
        (Change::Delete(_), None) => Some(TxnWrite::Missing),
    }
}

// The row that a change leaves at its key, if it leaves one.
pub(crate) fn image_of(change: Change) -> Option<Row>
    ensures { result ≡ image_of change }
{
    match change {
        Change::Insert(row) | Change::Replace(row) => Some(row),
        Change::Delete(_) => None,
    }
}

// Puts the image of a change at its key. It wants memory only where the key has no row, and
// then changes nothing.
pub(crate) fn put_image(
    tables: &mut Homes,
    patch: &Patch,
    image: Option<Row>,
    lsn: u64,
) -> Result<(), AllocError>
    requires image { image ≡ patch.now.after }
    requires takes { IsSomeAnd (table_named tables.old.all patch.now.table) (TakesPatch patch.now) }
    ensures ok { OnOk result (Patched tables.old.all tables.new.all patch.now lsn) }
    ensures err { OnErr result (tables.new ≡ tables.old) }
    ensures own { tables.new.own ≡ tables.old.own }
    ensures succeeds { IsSome patch.now.before → IsOk result }
{
    match (patch.before.is_some(), image) {
        (true, Some(row)) => {
            tables.rewrite(&patch.table, &patch.key, row, lsn);
            Ok(())
        }
        (true, None) => tables.remove(&patch.table, &patch.key),
        (false, Some(row)) => tables.insert(&patch.table, row, lsn),
        (false, None) => Ok(()),
    }
}

// Asks for the lock on the key of a change, and puts the image there. Where another's lock conflicts, or memory wants, nothing
// changes.
pub(crate) fn put_locked(
    tables: &mut Homes,
    locks: &mut LockTable,
    txn: u64,
    patch: &Patch,
    image: Option<Row>,
    lsn: u64,
) -> Result<Asked, AllocError>
    requires image { image ≡ patch.now.after }
    requires takes { IsSomeAnd (table_named tables.old.all patch.now.table) (TakesPatch patch.now) }
    requires some { HasImage patch.now }
    ensures own { tables.new.own ≡ tables.old.own }
    ensures rows { IfOk result (PutsWhere tables.old.all tables.new.all patch.now lsn) }
    ensures asked { IfOk result (AnswersAsk locks.old locks.new txn patch.now.table patch.now.key Exclusive) }
    ensures same_rows { OnErr result (SameTables tables.old.all tables.new.all) }
    ensures same_locks { OnErr result (SameLocks locks.old locks.new) }
{
    if patch.before.is_none() {
        return put_new(tables, locks, txn, patch, image, lsn);
    }
    match locks.ask(txn, &patch.table, &patch.key, Mode::Exclusive)? {
        Asked::Held { by } => Ok(Asked::Held { by }),
        Asked::Granted => {
            put_image(tables, patch, image, lsn)?;
            Ok(Asked::Granted)
        }
    }
}

// The same at a key without a row, where the image goes in first, since that wants memory.
fn put_new(
    tables: &mut Homes,
    locks: &mut LockTable,
    txn: u64,
    patch: &Patch,
    image: Option<Row>,
    lsn: u64,
) -> Result<Asked, AllocError>
    requires image { image ≡ patch.now.after }
    requires takes { IsSomeAnd (table_named tables.old.all patch.now.table) (TakesPatch patch.now) }
    requires none { patch.now.before ≡ None }
    requires some { IsSome patch.now.after }
    ensures own { tables.new.own ≡ tables.old.own }
    ensures rows { IfOk result (PutsWhere tables.old.all tables.new.all patch.now lsn) }
    ensures asked { IfOk result (AnswersAsk locks.old locks.new txn patch.now.table patch.now.key Exclusive) }
    ensures same_rows { OnErr result (SameTables tables.old.all tables.new.all) }
    ensures same_locks { OnErr result (SameLocks locks.old locks.new) }
{
    put_image(tables, patch, image, lsn)?;
    match locks.ask(txn, &patch.table, &patch.key, Mode::Exclusive) {
        Ok(Asked::Granted) => Ok(Asked::Granted),
        Ok(Asked::Held { by }) => {
            tables.remove(&patch.table, &patch.key)?;
            Ok(Asked::Held { by })
        }
        Err(error) => {
            tables.remove(&patch.table, &patch.key)?;
            Err(error)
        }
    }
}
