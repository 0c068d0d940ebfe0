// The table of locks.
ghost use Rattle.std.specs.Prelude.{◌≡◌, ◌↔◌, [], IfOk, OnOk, OnErr, IsTrue};
ghost use Rattle.sx_locks.specs.Locks.{mode_held, SameLocks, IsLeastOther, AnswersAsk, LockedSo, Freed, HoldsOn};
ghost use Rattle.sx_locks.specs.Places.{FreesEach};

use crate::mode::Taken;
use crate::places::{Place, Places};
use crate::tables::TableLocks;
use crate::{Asked, Mode};
use std::alloc::{AllocError, Global};
use std::marker::Model;
use sx_values::{Key, Name};

/// The locks that transactions hold on the keys of tables.
#[derive(Drop)]
pub struct LockTable {
    locks: TableLocks,
    places: Places,
    alloc: Global,
}

impl Model for LockTable {
    ghost use Rattle.sx_locks.specs.Locks.{Locks};

    ghost Value = { Locks };

    ghost use Rattle.sx_locks.specs.Places.{AreListed};

    ghost view = { λ t. t.locks };

    ghost invariant = { λ t. AreListed t.places t.locks };
}

impl LockTable {
    /// No locks.
    pub fn new(alloc: Global) -> LockTable
        ensures { result ≡ [] }
    {
        LockTable {
            locks: TableLocks::new(alloc),
            places: Places::new(alloc),
            alloc,
        }
    }

    /// Asks for a transaction's lock on a key of a table. Where no other transaction holds a
    /// conflicting lock, the transaction holds then the stronger of what it held and what it asks.
    /// Want of memory changes no lock.
    pub fn ask(
        &mut self,
        txn: u64,
        table: &Name,
        key: &Key,
        mode: Mode,
    ) -> Result<Asked, AllocError>
        ensures ok { IfOk result (AnswersAsk self.old self.new txn table.now key.now mode) }
        ensures err { OnErr result (SameLocks self.old self.new) }
    {
        let held = match self.locks.ask(self.alloc, txn, table, key, mode)? {
            Taken::Hindered { by } => return Ok(Asked::Held { by }),
            Taken::Locked { held } => held,
        };
        if held.is_some() {
            return Ok(Asked::Granted);
        }
        match self.places.add(self.alloc, txn, table, key) {
            Ok(()) => Ok(Asked::Granted),
            Err(error) => {
                self.locks.free(txn, table, key);
                Err(error)
            }
        }
    }

    /// Gives a transaction a lock that no other's conflicts with: it holds then the stronger of what it held and this
    /// mode. Want of memory changes no lock.
    pub fn grant(&mut self, txn: u64, table: &Name, key: &Key, mode: Mode) -> Result<(), AllocError>
        requires free { IsLeastOther self.old txn table.now key.now mode None }
        ensures ok { OnOk result (LockedSo self.old self.new txn table.now key.now mode) }
        ensures err { OnErr result (SameLocks self.old self.new) }
    {
        match self.ask(txn, table, key, mode)? {
            Asked::Granted => Ok(()),
            Asked::Held { .. } => unreachable!(),
        }
    }

    /// Frees all locks of a transaction, and no other. It takes no memory.
    pub fn release_all(&mut self, txn: u64)
        ensures { Freed self.old self.new txn }
    {
        let places = self.places.take(self.alloc, txn);
        free_each(&mut self.locks, txn, places.as_slice());
    }

    /// The mode in which a transaction holds a key of a table, if it does.
    pub fn holds(&self, txn: u64, table: &Name, key: &Key) -> Option<Mode>
        ensures { result ≡ mode_held self.now txn table.now key.now }
    {
        self.locks.mode_held(txn, table, key)
    }

    /// The least other transaction that holds a conflicting lock on a key of a table, or None.
    pub fn least_holder(&self, txn: u64, table: &Name, key: &Key, mode: Mode) -> Option<u64>
        ensures { IsLeastOther self.now txn table.now key.now mode result }
    {
        self.locks.least_other(txn, table, key, mode)
    }

    /// Whether a transaction holds some key of a table. It looks through the transaction's locks.
    pub fn any_on(&self, txn: u64, table: &Name) -> bool
        ensures { IsTrue result ↔ HoldsOn self.now txn table.now }
    {
        self.places.has_table(txn, table)
    }
}

// Frees a transaction's locks at these places.
fn free_each(locks: &mut TableLocks, txn: u64, places: &[Place])
    ensures { FreesEach locks.old locks.new txn places.now }
{
    for place in places {
        locks.free(txn, &place.table, &place.key);
    }
}
