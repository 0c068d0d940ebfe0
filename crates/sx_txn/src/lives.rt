// The live transactions of a manager, the last one begun first.
ghost use Rattle.std.specs.Prelude.{◌≡◌, ◌==◌, ◌&&◌, ◌≤◌, ◌+◌, ◌∷◌, map, length, OnOk, OnErr};
ghost use Rattle.std.specs.List.{AllByRecursion, list_any};
ghost use Rattle.sx_txn.specs.Writes.{first_of};
ghost use Rattle.sx_txn.specs.Lives.{kept_of, kept_all, writes_of, with_write, with_undo, kept_without, fresh, HasRoomFor};

use crate::lsns::Lsns;
use std::alloc::{AllocError, Global};
use sx_log::Log;

// A live transaction: whether it is ending, and its writes that are not undone.
#[derive(Drop)]
pub(crate) struct Live {
    pub(crate) txn: u64,
    pub(crate) ending: bool,
    pub(crate) writes: Lsns,
}

impl Live {
    // Makes room for one more write, if it is this transaction.
    fn reserve(&mut self, txn: u64) -> Result<(), AllocError>
        ensures same { kept_of self.new ≡ kept_of self.old }
        ensures ok { OnOk result (HasRoomFor txn self.new) }
    {
        if self.txn == txn {
            self.writes.reserve()?;
        }
        Ok(())
    }

    // Notes a write, if it is this transaction.
    fn note(&mut self, txn: u64, lsn: u64)
        requires { HasRoomFor txn self.old }
        ensures { kept_of self.new ≡ with_write txn lsn (kept_of self.old) }
    {
        if self.txn == txn {
            self.writes.append(lsn);
        }
    }

    // Takes the last write away and is ending, if it is this transaction.
    fn undo(&mut self, txn: u64)
        ensures { kept_of self.new ≡ with_undo txn (kept_of self.old) }
    {
        if self.txn == txn {
            self.writes.drop_last();
            self.ending = true;
        }
    }
}

// Whether a transaction is among these.
pub(crate) fn is_live(living: &[Live], txn: u64) -> bool
    ensures { result ≡ list_any (λ live. live.txn == txn) living.now }
{
    living.iter().any(|live| live.txn == txn)
}

// Whether a transaction is among these and ending.
pub(crate) fn is_ending(living: &[Live], txn: u64) -> bool
    ensures { result ≡ list_any (λ live. live.txn == txn && live.ending) living.now }
{
    living.iter().any(|live| live.txn == txn && live.ending)
}

// The last write of a transaction that is not undone, if there is one.
pub(crate) fn last_write(living: &[Live], txn: u64) -> Option<u64>
    ensures { result ≡ first_of (writes_of (kept_all living.now) txn) }
{
    match living {
        [] => None,
        [live, rest @ ..] => {
            if live.txn == txn {
                live.writes.last()
            } else {
                last_write(rest, txn)
            }
        }
    }
}

// Makes room for one more write of a transaction.
fn reserve_write(living: &mut [Live], txn: u64) -> Result<(), AllocError>
    ensures same { kept_all living.new ≡ kept_all living.old }
    ensures ok { OnOk result (AllByRecursion (HasRoomFor txn) living.new) }
{
    for live in living.iter_mut() {
        live.reserve(txn)?;
    }
    Ok(())
}

// Makes room for a write of a transaction, in the log and in its list, beside the records that
// will end transactions.
pub(crate) fn make_room(log: &mut Log, living: &mut [Live], txn: u64) -> Result<(), AllocError>
    ensures records { log.new.newest ≡ log.old.newest }
    ensures no_less { log.old.spare ≤ log.new.spare }
    ensures room { OnOk result (length living.old + 1 ≤ log.new.spare) }
    ensures same { kept_all living.new ≡ kept_all living.old }
    ensures ok { OnOk result (AllByRecursion (HasRoomFor txn) living.new) }
{
    log.reserve(living.len() as u64 + 1)?;
    reserve_write(living, txn)
}

// Notes a write of a transaction.
pub(crate) fn note_write(living: &mut [Live], txn: u64, lsn: u64)
    requires { AllByRecursion (HasRoomFor txn) living.old }
    ensures { kept_all living.new ≡ map (with_write txn lsn) (kept_all living.old) }
{
    for live in living.iter_mut() {
        live.note(txn, lsn);
    }
}

// Takes away the last write of a transaction, which is ending now.
pub(crate) fn undo_write(living: &mut [Live], txn: u64)
    ensures { kept_all living.new ≡ map (with_undo txn) (kept_all living.old) }
{
    for live in living.iter_mut() {
        live.undo(txn);
    }
}

// Puts a new transaction before the others. Want of memory changes nothing.
pub(crate) fn add(alloc: Global, living: &mut Vec<Live>, txn: u64) -> Result<(), AllocError>
    ensures ok { OnOk result (kept_all living.new.items ≡ fresh txn ∷ kept_all living.old.items) }
    ensures err { OnErr result (living.new.items ≡ living.old.items) }
{
    let writes = Lsns::new(alloc);
    let ending = false;
    living.insert(
        0,
        Live {
            txn,
            ending,
            writes,
        },
    )?;
    Ok(())
}

// Takes a transaction out.
pub(crate) fn remove(living: &mut Vec<Live>, txn: u64)
    ensures { kept_all living.new.items ≡ kept_without txn (kept_all living.old.items) }
{
    living.retain(|live| live.txn != txn);
}
