// A list that grows at its end within room that was reserved before.
ghost use Rattle.std.specs.Prelude.{◌≡◌, ◌≤◌, ◌<◌, ◌+◌, ◌==◌, [], ◌∷◌, length, reverse, take, drop, IfOk, IsOk, OnOk, OnErr};
ghost use Rattle.std.specs.Option.{option_copied};
ghost use Rattle.sx_lists.specs.Places.{Growing, numbered, following};

use crate::copies::copies_of;
use crate::lists::item_at;
use crate::{Copied, List};
use std::alloc::{AllocError, Global};
use std::marker::Model;

/// A list with room. A contract sees it newest first; places count from 1, the oldest first.
#[derive(Drop)]
pub struct Reserved<T> {
    items: Vec<T>,
}

impl<T> Model for Reserved<T> {
    ghost use Rattle.std.specs.Prelude.{List, ℕ, ◌-◌, reverse, vec_len, vec_capacity, refl};
    ghost use Rattle.std.specs.Coded.{coded_list, coded_ℕ, coded×, code_by};
    ghost use Rattle.sx_lists.specs.Places.{Growing};

    ghost Value = { Growing T };

    ghost coded = { code_by (List T × ℕ) (coded× (coded_list T.code) coded_ℕ) (λ g. (g.newest, g.spare)) (λ p. record { newest = p.0; spare = p.1 }) (λ _. refl) };

    ghost view = { λ r. record { newest = reverse r.items.items; spare = vec_capacity r.items - vec_len r.items } };
}

impl<T> Reserved<T> {
    /// The empty list, without room.
    pub fn new(alloc: Global) -> Self
        ensures { result.newest ≡ [] }
    {
        Reserved {
            items: Vec::new(alloc),
        }
    }

    /// Makes the room at least `n`. Want of memory leaves the items and the room.
    pub fn reserve(&mut self, n: u64) -> Result<(), AllocError>
        ensures items { self.new.newest ≡ self.old.newest }
        ensures room { OnOk result (n ≤ self.new.spare) }
        ensures no_less { self.old.spare ≤ self.new.spare }
        ensures succeeds { n ≤ self.old.spare → IsOk result }
        ensures err { OnErr result (self.new ≡ self.old) }
    {
        self.items.reserve(n as usize)
    }

    /// Puts an item at the end, which takes no memory, and answers its place.
    pub fn append(&mut self, item: T) -> u64
        requires { 0 < self.old.spare }
        ensures place { result ≡ length self.new.newest }
        ensures item { self.new.newest ≡ item ∷ self.old.newest }
        ensures room { self.new.spare + 1 ≡ self.old.spare }
    {
        self.items.push_reserved(item);
        self.len()
    }

    /// How many items there are.
    pub fn len(&self) -> u64
        ensures { result ≡ length self.now.newest }
    {
        self.items.len() as u64
    }

    /// The room that is left.
    pub fn spare(&self) -> u64
        ensures { result ≡ self.now.spare }
    {
        (self.items.capacity() - self.items.len()) as u64
    }

    /// Whether there is no item.
    pub fn is_empty(&self) -> bool
        ensures { result ≡ (length self.now.newest == 0) }
    {
        self.items.is_empty()
    }

    /// The item at a place, or None where there is none.
    pub fn at(&self, place: u64) -> Option<&T>
        ensures { option_copied result ≡ numbered self.now.newest place }
    {
        item_at(&self.items, place)
    }

    /// The items, the oldest first.
    pub fn as_slice(&self) -> &[T]
        ensures { reverse result.now ≡ self.now.newest }
    {
        self.items.as_slice()
    }
}

impl<T: Copied + Drop> Reserved<T> {
    /// Copies of the items after the first `from`, as many as there are and at most `n`.
    pub fn range(&self, alloc: Global, from: u64, n: u64) -> Result<List<T>, AllocError>
        ensures { IfOk result (λ copies. copies ≡ following self.now.newest from n) }
    {
        copies_of(alloc, part_of(&self.items, from, n))
    }
}

// The items after the first `from`, at most `n`.
#[tactic(auto, using(std::proofs::lemmas::List::take_min, std::proofs::lemmas::List::drop_min))]
fn part_of<T>(items: &[T], from: u64, n: u64) -> &[T]
    ensures { result.now ≡ take n (drop from items.now) }
{
    let after = items.split_at((from as usize).min(items.len())).1;
    after.split_at((n as usize).min(after.len())).0
}
