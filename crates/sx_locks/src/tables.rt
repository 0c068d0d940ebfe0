// The locks on the keys of each table.
ghost use Rattle.std.specs.Prelude.{◌≡◌, [], None, OnErr, IfOk};
ghost use Rattle.sx_locks.specs.Locks.{mode_held, SetsLock, IsLeastOther};
ghost use Rattle.sx_locks.specs.Taking.{Takes};

use crate::Mode;
use crate::keys::KeyLocks;
use crate::mode::Taken;
use std::alloc::{AllocError, Global};
use std::collections::BTreeMap;
use std::marker::Model;
use sx_lists::Copied;
use sx_values::{Key, Name};

// The locks of each table that had some.
#[derive(Drop)]
pub(crate) struct TableLocks {
    tables: BTreeMap<Name, KeyLocks>,
}

impl Model for TableLocks {
    ghost use Rattle.sx_locks.specs.Locks.{Locks};

    ghost Value = { Locks };

    ghost view = { λ t. t.tables.entries };
}

impl TableLocks {
    // No locks.
    pub(crate) fn new(alloc: Global) -> TableLocks
        ensures { result ≡ [] }
    {
        TableLocks {
            tables: BTreeMap::new(alloc),
        }
    }

    // The mode in which a transaction holds a key of a table, if it does.
    pub(crate) fn mode_held(&self, txn: u64, table: &Name, key: &Key) -> Option<Mode>
        ensures { result ≡ mode_held self.now txn table.now key.now }
    {
        match self.tables.get(table) {
            Some(keys) => keys.mode_at(txn, key),
            None => None,
        }
    }

    // The least other transaction that holds a conflicting lock on a key of a table, or None.
    pub(crate) fn least_other(&self, txn: u64, table: &Name, key: &Key, mode: Mode) -> Option<u64>
        ensures { IsLeastOther self.now txn table.now key.now mode result }
    {
        match self.tables.get(table) {
            Some(keys) => keys.least_other(txn, key, mode),
            None => None,
        }
    }

    // Asks for a transaction's lock on a key of a table: it holds then the stronger of what it held and this mode, where no
    // other's lock conflicts. Want of memory changes nothing.
    pub(crate) fn ask(
        &mut self,
        alloc: Global,
        txn: u64,
        table: &Name,
        key: &Key,
        mode: Mode,
    ) -> Result<Taken, AllocError>
        ensures ok { IfOk result (Takes self.old self.new txn table.now key.now mode) }
        ensures err { OnErr result (self.new ≡ self.old) }
    {
        match self.tables.get_mut(table) {
            Some(keys) => keys.ask(alloc, txn, key, mode),
            None => {
                let name = table.copy(alloc)?;
                let mut keys = KeyLocks::new(alloc);
                let taken = keys.ask(alloc, txn, key, mode)?;
                self.tables.insert(name, keys)?;
                Ok(taken)
            }
        }
    }

    // Takes a transaction's lock from a key of a table.
    pub(crate) fn free(&mut self, txn: u64, table: &Name, key: &Key)
        ensures { SetsLock self.old self.new txn table.now key.now None }
    {
        match self.tables.get_mut(table) {
            Some(keys) => keys.free(txn, key),
            None => (),
        }
    }
}
