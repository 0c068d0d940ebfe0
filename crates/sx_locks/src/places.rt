// Where the locks of each transaction are.
ghost use Rattle.std.specs.Prelude.{◌≡◌, ◌==◌, ℕ, [], OnOk, OnErr, if◌then◌else◌};
ghost use Rattle.sx_locks.specs.Places.{places_of, has_table, AddsPlace};

use std::alloc::{AllocError, Global};
use std::collections::BTreeMap;
use std::marker::Model;
use sx_lists::{Copied, List};
use sx_values::{Key, Name};

// A key of a table.
#[derive(Drop)]
pub(crate) struct Place {
    pub(crate) table: Name,
    pub(crate) key: Key,
}

// The places of the locks of each transaction that has some.
#[derive(Drop)]
pub(crate) struct Places {
    places: BTreeMap<u64, List<Place>>,
}

impl Model for Places {
    ghost use Rattle.std.specs.Prelude.{List, ℕ};
    ghost use Rattle.sx_locks.specs.declared.places.Place.{Place};

    ghost Value = { List (ℕ × List Place) };

    ghost view = { λ p. p.places.entries };
}

impl Places {
    // No places.
    pub(crate) fn new(alloc: Global) -> Places
        ensures { result ≡ [] }
    {
        Places {
            places: BTreeMap::new(alloc),
        }
    }

    // Whether a place in a table is listed for a transaction.
    pub(crate) fn has_table(&self, txn: u64, table: &Name) -> bool
        ensures { result ≡ has_table (places_of self.now txn) table.now }
    {
        match self.places.get(&txn) {
            Some(places) => are_in_table(places.as_slice(), table),
            None => false,
        }
    }

    // Lists a place for a transaction. Want of memory changes nothing.
    pub(crate) fn add(
        &mut self,
        alloc: Global,
        txn: u64,
        table: &Name,
        key: &Key,
    ) -> Result<(), AllocError>
        ensures ok { OnOk result (AddsPlace self.old self.new txn (record { table = table.now; key = key.now })) }
        ensures err { OnErr result (self.new ≡ self.old) }
    {
        let table = table.copy(alloc)?;
        let key = key.copy(alloc)?;
        let place = Place { table, key };
        match self.places.get_mut(&txn) {
            Some(places) => places.push(place),
            None => {
                let mut places = List::new(alloc);
                places.push(place)?;
                self.places.insert(txn, places)?;
                Ok(())
            }
        }
    }

    // Takes out the places of a transaction.
    pub(crate) fn take(&mut self, alloc: Global, txn: u64) -> List<Place>
        ensures places { result ≡ places_of self.old txn }
        ensures others { (other : ℕ) → places_of self.new other ≡ (if txn == other then [] else places_of self.old other) }
    {
        match self.places.remove(&txn) {
            Some(places) => places,
            None => List::new(alloc),
        }
    }
}

// Whether one of these places is in a table.
fn are_in_table(places: &[Place], table: &Name) -> bool
    ensures { result ≡ has_table places.now table.now }
{
    places.iter().any(|place| place.table == *table)
}
