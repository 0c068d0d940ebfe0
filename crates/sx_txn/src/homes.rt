// The tables of a manager: the declared ones, and the new ones of a transformation.
ghost use Rattle.std.specs.Prelude.{◌≡◌, ◌≤◌, ◌++◌, [], length, take, drop, OnOk, OnErr, IsOk, IsSome, IsSomeAnd, is_some};
ghost use Rattle.std.specs.Option.{option_copied};
ghost use Rattle.sx_heap.specs.Relations.{row_at};
ghost use Rattle.sx_heap.specs.NamedTables.{AreNamedApart, PutsRowIn, RemovesRowIn, LacksKeyOf, HasThisKeyOf, table_named};
ghost use Rattle.sx_txn.specs.Homes.{AreHomed};

use std::alloc::{AllocError, Global};
use std::marker::Model;
use std::mem;
use sx_heap::{Table, Tables};
use sx_values::{Key, Name, Row};

// Tables with different names. A contract sees the declared ones first.
#[derive(Drop)]
pub(crate) struct Homes {
    own: Tables,
    fresh: Tables,
}

impl Model for Homes {
    ghost use Rattle.std.specs.Prelude.{◌++◌};
    ghost use Rattle.sx_txn.specs.Homes.{Homed, housed, AreHomed};

    ghost Value = { Homed };

    ghost view = { λ h. housed h.own h.fresh };

    ghost invariant = { λ h. AreHomed (housed h.own h.fresh) };
}

impl Homes {
    // The declared tables alone.
    pub(crate) fn new(alloc: Global, own: Tables) -> Homes
        ensures all { result.all ≡ own }
        ensures own { result.own ≡ length own }
    {
        Homes {
            own,
            fresh: Tables::new(alloc),
        }
    }

    // The declared tables.
    pub(crate) fn own(&self) -> &Tables
        ensures own { result.now ≡ take self.now.own self.now.all }
        ensures homed { AreHomed self.now }
    {
        &self.own
    }

    // The new tables.
    pub(crate) fn fresh(&self) -> &Tables
        ensures fresh { result.now ≡ drop self.now.own self.now.all }
        ensures homed { AreHomed self.now }
    {
        &self.fresh
    }

    // Puts new tables in the place of those that were there.
    pub(crate) fn put_fresh(&mut self, tables: Tables)
        requires apart { AreNamedApart (take self.old.own self.old.all ++ tables) }
        ensures own { self.new.own ≡ self.old.own }
        ensures all { self.new.all ≡ take self.old.own self.old.all ++ tables }
        ensures few { self.old.own ≤ length self.old.all }
    {
        self.fresh = tables;
    }

    // Hands out the new tables, and leaves none.
    pub(crate) fn take_fresh(&mut self, alloc: Global) -> Tables
        ensures own { self.new.own ≡ self.old.own }
        ensures all { self.new.all ≡ take self.old.own self.old.all }
        ensures were { result ≡ drop self.old.own self.old.all }
        ensures few { self.old.own ≤ length self.old.all }
    {
        mem::replace(&mut self.fresh, Tables::new(alloc))
    }

    // The table of a name, or None where the name isn't there.
    pub(crate) fn find(&self, name: &Name) -> Option<&Table>
        ensures found { option_copied result ≡ table_named self.now.all name.now }
        ensures homed { AreHomed self.now }
    {
        match self.own.find(name) {
            Some(table) => Some(table),
            None => self.fresh.find(name),
        }
    }

    // Puts in a row whose key the table of a name lacks. Want of memory changes nothing.
    pub(crate) fn insert(&mut self, name: &Name, row: Row, lsn: u64) -> Result<(), AllocError>
        requires { IsSomeAnd (table_named self.old.all name.now) (LacksKeyOf row) }
        ensures own { self.new.own ≡ self.old.own }
        ensures ok { OnOk result (PutsRowIn self.old.all self.new.all name.now row lsn) }
        ensures err { OnErr result (self.new ≡ self.old) }
    {
        if has(&self.own, name) {
            self.own.insert(name, row, lsn)
        } else {
            self.fresh.insert(name, row, lsn)
        }
    }

    // Puts a row in the place of that of its key in the table of a name. It takes no memory.
    pub(crate) fn rewrite(&mut self, name: &Name, key: &Key, row: Row, lsn: u64)
        requires { IsSomeAnd (table_named self.old.all name.now) (HasThisKeyOf key.now row) }
        ensures own { self.new.own ≡ self.old.own }
        ensures puts { PutsRowIn self.old.all self.new.all name.now row lsn }
    {
        if has(&self.own, name) {
            self.own.rewrite(name, key, row, lsn);
        } else {
            self.fresh.rewrite(name, key, row, lsn);
        }
    }

    // Takes the row of a key out of the table of a name. It takes no memory, so it is always done.
    pub(crate) fn remove(&mut self, name: &Name, key: &Key) -> Result<(), AllocError>
        requires { IsSomeAnd (table_named self.old.all name.now) (λ table. IsSome (row_at table.rows key.now)) }
        ensures own { self.new.own ≡ self.old.own }
        ensures done { IsOk result }
        ensures ok { OnOk result (RemovesRowIn self.old.all self.new.all name.now key.now) }
        ensures err { OnErr result (self.new ≡ self.old) }
    {
        if has(&self.own, name) {
            self.own.remove(name, key)
        } else {
            self.fresh.remove(name, key)
        }
    }
}

// Whether there is a table of this name.
fn has(tables: &Tables, name: &Name) -> bool
    ensures { result ≡ is_some (table_named tables.now name.now) }
{
    tables.find(name).is_some()
}
