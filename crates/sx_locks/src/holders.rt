// The transactions that hold one key.
ghost use Rattle.std.specs.Prelude.{◌≡◌, ◌==◌, ◌↔◌, ℕ, [], ◌∷◌, Some, None, OnOk, OnErr, IfOk, IsTrue, if◌then◌else◌};
ghost use Rattle.sx_locks.specs.Modes.{mode_of, IsLeastOf};
ghost use Rattle.sx_locks.specs.Holding.{holders_in};
ghost use Rattle.sx_locks.specs.Taking.{TakesAmong};

use crate::Mode;
use crate::mode::Taken;
use std::alloc::{AllocError, Global};
use std::collections::BTreeMap;
use std::marker::Model;

// Nobody, one transaction in a mode, or transactions with their modes. One alone takes no memory of its own.
#[derive(Drop)]
pub(crate) enum Holding {
    Nobody,
    One(u64, Mode),
    Many(BTreeMap<u64, Mode>),
}

// Transactions with their modes.
#[derive(Drop)]
pub(crate) struct Holders {
    holding: Holding,
}

impl Model for Holders {
    ghost use Rattle.std.specs.Prelude.{List, ℕ};
    ghost use Rattle.sx_locks.specs.declared.mode.Mode.{Mode};
    ghost use Rattle.sx_locks.specs.Holding.{holders_in};

    ghost Value = { List (ℕ × Mode) };

    ghost view = { λ h. holders_in h.holding };
}

impl Holders {
    // One holder in this mode.
    pub(crate) fn one(txn: u64, mode: Mode) -> Holders
        ensures { result ≡ (txn, mode) ∷ [] }
    {
        Holders {
            holding: Holding::One(txn, mode),
        }
    }

    // The mode in which a transaction is a holder, if it is.
    pub(crate) fn mode_of(&self, txn: u64) -> Option<Mode>
        ensures { result ≡ mode_of self.now txn }
    {
        match &self.holding {
            Holding::Nobody => None,
            Holding::One(holder, mode) => { if txn == *holder { Some(*mode) } else { None } }
            Holding::Many(modes) => modes.get(&txn).copied(),
        }
    }

    // The least other transaction whose mode conflicts with this one, or None.
    pub(crate) fn least_other(&self, txn: u64, mode: Mode) -> Option<u64>
        ensures { IsLeastOf (mode_of self.now) txn mode result }
    {
        match &self.holding {
            Holding::Nobody => None,
            Holding::One(holder, held) => {
                if txn != *holder && held.conflicts_with(mode) {
                    Some(*holder)
                } else {
                    None
                }
            }
            Holding::Many(modes) => least_among(modes, txn, mode),
        }
    }

    // Makes a transaction a holder in this mode. Want of memory changes nothing.
    fn set(&mut self, alloc: Global, txn: u64, mode: Mode) -> Result<(), AllocError>
        ensures ok { OnOk result ((other : ℕ) → mode_of self.new other ≡ (if txn == other then Some mode else mode_of self.old other)) }
        ensures err { OnErr result (self.new ≡ self.old) }
    {
        match &mut self.holding {
            Holding::Nobody => self.holding = Holding::One(txn, mode),
            Holding::One(holder, held) => {
                if txn == *holder {
                    *held = mode;
                } else {
                    self.holding = two(alloc, (*holder, *held), (txn, mode))?;
                }
            }
            Holding::Many(modes) => {
                modes.insert(txn, mode)?;
            }
        }
        Ok(())
    }

    // Makes a transaction a holder in the stronger of its mode and this one, where no other holder's conflicts. Want of memory
    // changes nothing.
    pub(crate) fn ask(&mut self, alloc: Global, txn: u64, mode: Mode) -> Result<Taken, AllocError>
        ensures ok { IfOk result (TakesAmong self.old self.new txn mode) }
        ensures err { OnErr result (self.new ≡ self.old) }
    {
        if let Some(by) = self.least_other(txn, mode) {
            return Ok(Taken::Hindered { by });
        }
        let held = self.mode_of(txn);
        self.set(alloc, txn, mode.raised_from(held))?;
        Ok(Taken::Locked { held })
    }

    // Makes a transaction no holder, and answers whether there is none now.
    pub(crate) fn free(&mut self, txn: u64) -> bool
        ensures freed { (other : ℕ) → mode_of self.new other ≡ (if txn == other then None else mode_of self.old other) }
        ensures none { IsTrue result ↔ (self.new ≡ []) }
    {
        match &mut self.holding {
            Holding::Nobody => true,
            Holding::One(holder, _) => {
                if txn == *holder {
                    self.holding = Holding::Nobody;
                    true
                } else {
                    false
                }
            }
            Holding::Many(modes) => {
                modes.remove(&txn);
                modes.is_empty()
            }
        }
    }
}

// The least other transaction of these whose mode conflicts with this one, or None.
fn least_among(modes: &BTreeMap<u64, Mode>, txn: u64, mode: Mode) -> Option<u64>
    ensures { IsLeastOf (mode_of modes.now.entries) txn mode result }
{
    for (other, held) in modes.iter() {
        if txn != *other && held.conflicts_with(mode) {
            return Some(*other);
        }
    }
    None
}

// One transaction in its mode, and another in its own.
fn two(alloc: Global, one: (u64, Mode), other: (u64, Mode)) -> Result<Holding, AllocError>
    ensures { IfOk result (λ holding. (txn : ℕ) → mode_of (holders_in holding) txn ≡ (if other.0 == txn then Some other.1 else mode_of (one ∷ []) txn)) }
{
    let mut modes = BTreeMap::new(alloc);
    modes.insert(one.0, one.1)?;
    modes.insert(other.0, other.1)?;
    Ok(Holding::Many(modes))
}
