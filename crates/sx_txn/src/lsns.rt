// The LSNs of the writes of a transaction that are not undone.
ghost use Rattle.std.specs.Prelude.{◌≡◌, ◌<◌, ◌≤◌, ◌+◌, [], ◌∷◌, Some, None, OnOk, OnErr};
ghost use Rattle.sx_txn.specs.Writes.{first_of, rest_of};

use std::alloc::{AllocError, Global};
use std::marker::Model;

// LSNs with room, seen with the last one first.
#[derive(Drop)]
pub(crate) struct Lsns {
    items: Vec<u64>,
}

impl Model for Lsns {
    ghost use Rattle.std.specs.Prelude.{ℕ, ◌-◌, reverse, vec_len, vec_capacity};
    ghost use Rattle.sx_lists.specs.Places.{Growing};

    ghost Value = { Growing ℕ };

    ghost view = { λ l. record { newest = reverse l.items.items; spare = vec_capacity l.items - vec_len l.items } };
}

impl Lsns {
    // No LSNs.
    pub(crate) fn new(alloc: Global) -> Lsns
        ensures { result.newest ≡ [] }
    {
        Lsns {
            items: Vec::new(alloc),
        }
    }

    // Makes room for one more.
    pub(crate) fn reserve(&mut self) -> Result<(), AllocError>
        ensures same { self.new.newest ≡ self.old.newest }
        ensures ok { OnOk result (0 < self.new.spare) }
    {
        self.items.reserve(1)
    }

    // Puts one behind the others, which takes no memory.
    pub(crate) fn append(&mut self, lsn: u64)
        requires { 0 < self.old.spare }
        ensures { self.new.newest ≡ lsn ∷ self.old.newest }
    {
        self.items.push_reserved(lsn);
    }

    // The last one, if there is one.
    pub(crate) fn last(&self) -> Option<u64>
        ensures { result ≡ first_of self.now.newest }
    {
        self.items.last().copied()
    }

    // Takes the last one away.
    pub(crate) fn drop_last(&mut self)
        ensures { self.new.newest ≡ rest_of self.old.newest }
    {
        self.items.pop();
    }
}
