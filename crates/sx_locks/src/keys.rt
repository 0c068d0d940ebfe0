// The locks on the keys of one table.
ghost use Rattle.std.specs.Prelude.{◌≡◌, [], None, OnErr, IfOk, IsTrue};
ghost use Rattle.sx_locks.specs.Modes.{IsLeastOf};
ghost use Rattle.sx_locks.specs.Locks.{holders_at, mode_at, SetsLockAt};
ghost use Rattle.sx_locks.specs.Taking.{TakesAt};

use crate::Mode;
use crate::holders::Holders;
use crate::mode::Taken;
use std::alloc::{AllocError, Global};
use std::collections::BTreeMap;
use std::collections::btree_map::Entry;
use std::marker::Model;
use sx_lists::Copied;
use sx_values::Key;

// The holders of each key that has some, found by the order of keys.
#[derive(Drop)]
pub(crate) struct KeyLocks {
    keys: BTreeMap<Key, Holders>,
}

impl Model for KeyLocks {
    ghost use Rattle.sx_locks.specs.Locks.{KeyHolders};

    ghost Value = { KeyHolders };

    ghost view = { λ k. k.keys.entries };
}

impl KeyLocks {
    // No locks.
    pub(crate) fn new(alloc: Global) -> KeyLocks
        ensures { result ≡ [] }
    {
        KeyLocks {
            keys: BTreeMap::new(alloc),
        }
    }

    // The mode in which a transaction holds a key, if it does.
    pub(crate) fn mode_at(&self, txn: u64, key: &Key) -> Option<Mode>
        ensures { result ≡ mode_at self.now txn key.now }
    {
        match self.keys.get(key) {
            Some(holders) => holders.mode_of(txn),
            None => None,
        }
    }

    // The least other transaction that holds a conflicting lock on a key, or None.
    pub(crate) fn least_other(&self, txn: u64, key: &Key, mode: Mode) -> Option<u64>
        ensures { IsLeastOf (λ other. mode_at self.now other key.now) txn mode result }
    {
        match self.keys.get(key) {
            Some(holders) => holders.least_other(txn, mode),
            None => None,
        }
    }

    // Asks for a transaction's lock on a key: it holds then the stronger of what it held and this mode, where no other's lock
    // conflicts. Want of memory changes no lock.
    pub(crate) fn ask(
        &mut self,
        alloc: Global,
        txn: u64,
        key: &Key,
        mode: Mode,
    ) -> Result<Taken, AllocError>
        ensures ok { IfOk result (TakesAt self.old self.new txn key.now mode) }
        ensures err { OnErr result (self.new ≡ self.old) }
    {
        match self.keys.entry(key.copy(alloc)?)? {
            Entry::Vacant(entry) => {
                entry.insert(Holders::one(txn, mode));
                Ok(Taken::Locked { held: None })
            }
            Entry::Occupied(entry) => entry.into_mut().ask(alloc, txn, mode),
        }
    }

    // Takes a transaction's lock from a key, and the key out where it has no holder then. No
    // contract says the latter, since nothing is held there either way: it keeps the map as small
    // as what is held.
    pub(crate) fn free(&mut self, txn: u64, key: &Key)
        ensures { SetsLockAt self.old self.new txn key.now None }
    {
        if free_holder(&mut self.keys, txn, key) {
            self.keys.remove(key);
        }
    }
}

// Takes a transaction from the holders of a key, and answers whether none is left there.
fn free_holder(keys: &mut BTreeMap<Key, Holders>, txn: u64, key: &Key) -> bool
    ensures freed { SetsLockAt keys.old.entries keys.new.entries txn key.now None }
    ensures bare { IsTrue result → holders_at keys.new.entries key.now ≡ [] }
{
    match keys.get_mut(key) {
        Some(holders) => holders.free(txn),
        None => false,
    }
}
