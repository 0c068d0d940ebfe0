// The entries of one actor.
ghost use Rattle.std.specs.Prelude.{◌≡◌, ◌==◌, ◌∷◌, filter, if◌then◌else◌, IfOk, OnOk};
ghost use Rattle.sx_journal.specs.declared.entry.Entry.{Entry as TheEntry};

use crate::{Entry, Journal};
use std::alloc::{AllocError, Global};
use sx_lists::Copied;

/// The entries of an actor, in their order.
pub fn own(alloc: Global, journal: &Journal, actor: u8) -> Result<Journal, AllocError>
    ensures { IfOk result (λ own. own.newest ≡ filter (λ (e : TheEntry). e.actor == actor) journal.now.newest) }
{
    let mut own = Journal::new(alloc);
    for entry in journal.as_slice() {
        put_own(alloc, &mut own, entry, actor)?;
    }
    Ok(own)
}

// Puts an entry behind the others, if it is this actor's.
fn put_own(alloc: Global, own: &mut Journal, entry: &Entry, actor: u8) -> Result<(), AllocError>
    ensures { OnOk result (own.new.newest ≡ (if entry.now.actor == actor then entry.now ∷ own.old.newest else own.old.newest)) }
{
    if entry.actor == actor {
        let copied = entry.copy(alloc)?;
        own.reserve(1)?;
        own.append(copied);
    }
    Ok(())
}
