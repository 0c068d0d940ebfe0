// Walks through a table in turns.
ghost use Rattle.std.specs.Prelude.{◌≡◌, None, IfOk};
ghost use Rattle.std.specs.Range.Bound.{bound_map};

use crate::{Seen, Seens};
use std::alloc::{AllocError, Global};
use std::marker::Model;
use std::ops::Bound;
use sx_lists::Copied;
use sx_values::Key;

/// How far a walk has come: the key of the last row that it handed out, if there was one.
#[derive(Debug, Drop)]
pub struct Cursor {
    after: Option<Key>,
}

impl Model for Cursor {
    ghost use Rattle.std.specs.Prelude.{List, Option};
    ghost use Rattle.sx_values.specs.declared.value.Value.{Value as Datum};

    ghost Value = { Option (List Datum) };

    ghost view = { λ c. c.after };
}

/// What a turn of a walk gives.
#[derive(Debug, Drop)]
pub struct Walked {
    /// The next rows, in key order.
    pub seen: Seens,
    /// Where the next turn goes on.
    pub next: Cursor,
    /// Whether no further row is there.
    pub over: bool,
}

impl Cursor {
    ghost use Rattle.sx_heap.specs.Walks.{bound_of, last_key};

    /// Before the first row.
    pub fn start() -> Cursor
        ensures { result ≡ None }
    {
        Cursor { after: None }
    }

    // Where the rows behind the cursor begin.
    pub(crate) fn bound(&self) -> Bound<&Key>
        ensures { bound_map (λ x. x.now) result ≡ bound_of self.now }
    {
        match &self.after {
            Some(key) => Bound::Excluded(key),
            None => Bound::Unbounded,
        }
    }

    // Behind the last of these rows, or here where there are none.
    pub(crate) fn moved_past(self, alloc: Global, seen: &[Seen]) -> Result<Cursor, AllocError>
        ensures { IfOk result (λ next. next ≡ last_key self seen.now) }
    {
        match seen.last() {
            Some(last) => {
                let key = last.key.copy(alloc)?;
                Ok(Cursor { after: Some(key) })
            }
            None => Ok(self),
        }
    }
}

impl Copied for Cursor {
    fn copy(&self, alloc: Global) -> Result<Self, AllocError> {
        let after = self.after.copy(alloc)?;
        Ok(Cursor { after })
    }
}

impl Copied for Walked {
    fn copy(&self, alloc: Global) -> Result<Self, AllocError> {
        let seen = self.seen.copy(alloc)?;
        let next = self.next.copy(alloc)?;
        Ok(Walked {
            seen,
            next,
            over: self.over,
        })
    }
}
