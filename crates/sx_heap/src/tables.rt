// Tables by name.
ghost use Rattle.std.specs.Prelude.{◌≡◌, ◌==◌, [], ◌∷◌, ◌++◌, ◌<◌, None, length, not, is_some, IfOk, OnOk, OnErr, IsOk, IfSome, IsSome, IsSomeAnd, option_map};
ghost use Rattle.sx_values.specs.Names.{same_name};
ghost use Rattle.std.specs.Option.{option_copied, option_copied_mut};
ghost use Rattle.sx_lists.specs.Places.{at_place};
ghost use Rattle.sx_heap.specs.NamedTables.{AreNamedApart, PutsRowIn, RemovesRowIn, CanHold, LacksKeyOf, HasKeyOf, HasThisKeyOf, table_named, index_named, named_pair};
ghost use Rattle.sx_heap.specs.Relations.{row_at};

use crate::Table;
use std::alloc::{AllocError, Global};
use std::marker::Model;
use sx_values::{Key, Name, Row};

/// A table and its name.
#[derive(Drop)]
pub struct NamedTable {
    pub name: Name,
    pub table: Table,
}

/// Tables with different names, in the order in which they were put in. Places count from 1.
#[derive(Drop)]
pub struct Tables {
    tables: Vec<NamedTable>,
}

impl Model for Tables {
    ghost use Rattle.std.specs.Prelude.{List};
    ghost use Rattle.sx_heap.specs.declared.tables.NamedTable.{NamedTable};
    ghost use Rattle.sx_heap.specs.NamedTables.{AreNamedApart};

    ghost Value = { List NamedTable };

    ghost view = { λ t. t.tables.items };

    ghost invariant = { λ t. AreNamedApart t.tables.items };
}

impl Tables {
    ghost use Rattle.std.specs.Borrow.{sem};
    ghost use Rattle.sx_heap.specs.Lending.{LendsTable};

    /// No tables.
    pub fn new(alloc: Global) -> Tables
        ensures { result ≡ [] }
    {
        Tables {
            tables: Vec::new(alloc),
        }
    }

    /// How many tables there are.
    pub fn len(&self) -> u64
        ensures len { result ≡ length self.now }
        ensures apart { AreNamedApart self.now }
    {
        self.tables.len() as u64
    }

    /// Whether there is no table.
    pub fn is_empty(&self) -> bool
        ensures { result ≡ (length self.now == 0) }
    {
        self.tables.is_empty()
    }

    /// Puts a table at the end, under a name that isn't there. Want of memory changes nothing.
    pub fn push(&mut self, name: Name, table: Table) -> Result<(), AllocError>
        requires { table_named self.old name ≡ None }
        ensures ok { OnOk result (self.new ≡ self.old ++ record { name = name; table = table } ∷ []) }
        ensures err { OnErr result (self.new ≡ self.old) }
    {
        self.tables.push(NamedTable { name, table })?;
        Ok(())
    }

    /// The table of a name, or None where the name isn't there.
    pub fn find(&self, name: &Name) -> Option<&Table>
        ensures found { option_copied result ≡ table_named self.now name.now }
        ensures apart { AreNamedApart self.now }
    {
        let index = index_of(&self.tables, name)?;
        Some(&self.tables[index].table)
    }

    /// The table of a name, to be changed, or None where the name isn't there.
    pub fn find_mut(&mut self, name: &Name) -> Option<&mut Table>
        ensures* lends { sem 𝓛 (LendsTable self.entry name.now result) }
        ensures found { option_copied_mut result ≡ table_named self.old name.now }
    {
        let index = index_of(&self.tables, name)?;
        Some(&mut self.tables[index].table)
    }

    /// The name and the table at a place, or None where there is no such place.
    pub fn at(&self, place: u64) -> Option<(&Name, &Table)>
        ensures at { option_map named_pair result ≡ at_place self.now place }
        ensures apart { AreNamedApart self.now }
    {
        match named_at(&self.tables, place) {
            Some(named) => Some((&named.name, &named.table)),
            None => None,
        }
    }

    /// Puts in a row whose key the table of a name lacks. Want of memory changes nothing.
    #[tactic(auto, using(crate::proofs::NameLemmas::with_table_same))]
    pub fn insert(&mut self, name: &Name, row: Row, lsn: u64) -> Result<(), AllocError>
        requires { IsSomeAnd (table_named self.old name.now) (LacksKeyOf row) }
        ensures ok { OnOk result (PutsRowIn self.old self.new name.now row lsn) }
        ensures err { OnErr result (self.new ≡ self.old) }
    {
        match self.find_mut(name) {
            Some(table) => table.insert(row, lsn),
            None => unreachable!(),
        }
    }

    /// Puts a row at its key in the table of a name, where another row goes if one is there, and answers whether the key was
    /// absent. Want of memory changes nothing.
    #[tactic(auto, using(crate::proofs::NameLemmas::with_table_same))]
    pub fn put(&mut self, name: &Name, key: Key, row: Row, lsn: u64) -> Result<bool, AllocError>
        requires { IsSomeAnd (table_named self.old name.now) (CanHold key row) }
        ensures absent { IfOk result (λ absent. IsSomeAnd (table_named self.old name.now) (λ before. absent ≡ not (is_some (row_at before.rows key)))) }
        ensures ok { OnOk result (PutsRowIn self.old self.new name.now row lsn) }
        ensures err { OnErr result (self.new ≡ self.old) }
    {
        match self.find_mut(name) {
            Some(table) => table.put(key, row, lsn),
            None => unreachable!(),
        }
    }

    /// Puts a row in the place of that of its key in the table of a name. Want of memory changes nothing.
    #[tactic(auto, using(crate::proofs::NameLemmas::with_table_same))]
    pub fn replace(&mut self, name: &Name, row: Row, lsn: u64) -> Result<(), AllocError>
        requires { IsSomeAnd (table_named self.old name.now) (HasKeyOf row) }
        ensures ok { OnOk result (PutsRowIn self.old self.new name.now row lsn) }
        ensures err { OnErr result (self.new ≡ self.old) }
    {
        match self.find_mut(name) {
            Some(table) => table.replace(row, lsn),
            None => unreachable!(),
        }
    }

    /// Puts a row in the place of that of its key in the table of a name. It takes no memory.
    #[tactic(auto, using(crate::proofs::NameLemmas::with_table_same))]
    pub fn rewrite(&mut self, name: &Name, key: &Key, row: Row, lsn: u64)
        requires { IsSomeAnd (table_named self.old name.now) (HasThisKeyOf key.now row) }
        ensures { PutsRowIn self.old self.new name.now row lsn }
    {
        match self.find_mut(name) {
            Some(table) => table.rewrite(key, row, lsn),
            None => unreachable!(),
        }
    }

    /// Takes the row of a key out of the table of a name. It takes no memory, so it is always done.
    #[tactic(auto, using(crate::proofs::NameLemmas::with_table_same))]
    pub fn remove(&mut self, name: &Name, key: &Key) -> Result<(), AllocError>
        requires { IsSomeAnd (table_named self.old name.now) (λ table. IsSome (row_at table.rows key.now)) }
        ensures done { IsOk result }
        ensures ok { OnOk result (RemovesRowIn self.old self.new name.now key.now) }
        ensures err { OnErr result (self.new ≡ self.old) }
    {
        match self.find_mut(name) {
            Some(table) => table.remove(key),
            None => unreachable!(),
        }
    }
}

impl NamedTable {
    // Whether it has this name.
    fn is_named(&self, name: &Name) -> bool
        ensures { result ≡ same_name self.now.name name.now }
    {
        self.name == *name
    }
}

// The index of a name among these.
fn index_of(tables: &[NamedTable], name: &Name) -> Option<usize>
    ensures index { result ≡ index_named tables.now name.now }
    ensures within { IfSome result (λ index. index < length tables.now) }
{
    tables.iter().position(|named| named.is_named(name))
}

// The table at a place among these.
fn named_at(tables: &[NamedTable], place: u64) -> Option<&NamedTable>
    ensures { option_copied result ≡ at_place tables.now place }
{
    if place == 0 {
        return None;
    }
    tables.get((place - 1) as usize)
}
