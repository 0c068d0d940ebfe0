// The modes of locks, and what is answered where one is asked.
ghost use Rattle.std.specs.Prelude.{◌≡◌};
ghost use Rattle.sx_locks.specs.Modes.{do_conflict, stronger};

use std::alloc::{AllocError, Global};
use sx_lists::Copied;

/// How a key is locked.
#[derive(Clone, Copy, Debug, PartialEq, Eq)]
pub enum Mode {
    /// To be read, beside other readers.
    Shared,
    /// To be written, by one transaction alone.
    Exclusive,
}

/// What is answered where a lock is asked.
#[derive(Clone, Copy, Debug, PartialEq, Eq)]
pub enum Asked {
    /// The lock is held now.
    Granted,
    /// Another transaction holds a conflicting lock; this is the least such.
    Held { by: u64 },
}

// What comes of asking for a lock: the least other transaction whose lock conflicts, or what the asking one held before.
#[derive(Clone, Copy)]
pub(crate) enum Taken {
    Hindered { by: u64 },
    Locked { held: Option<Mode> },
}

impl Copied for Mode {
    fn copy(&self, _alloc: Global) -> Result<Self, AllocError> {
        Ok(*self)
    }
}

impl Copied for Asked {
    fn copy(&self, _alloc: Global) -> Result<Self, AllocError> {
        Ok(*self)
    }
}

impl Mode {
    // Whether a lock of this mode and another's of that mode conflict.
    pub(crate) fn conflicts_with(self, asked: Mode) -> bool
        ensures { result ≡ do_conflict self asked }
    {
        match (self, asked) {
            (Mode::Shared, Mode::Shared) => false,
            _ => true,
        }
    }

    // The stronger of this mode and what is held, if anything is.
    pub(crate) fn raised_from(self, held: Option<Mode>) -> Mode
        ensures { result ≡ stronger held self }
    {
        match held {
            Some(Mode::Exclusive) => Mode::Exclusive,
            Some(Mode::Shared) => self,
            None => self,
        }
    }
}
