// The catalog of declared tables.
ghost use Rattle.std.specs.Prelude.{◌≡◌, ◌∷◌, ◌++◌, [], OnErr, OnOk, IfSome, IsTrue, None, true, false, position};
ghost use Rattle.std.specs.List.{list_all};
ghost use Rattle.std.specs.Option.{option_copied};
ghost use Rattle.sx_lists.specs.Answers.{RefusesBy};
ghost use Rattle.sx_values.specs.Names.{same_name, has_name};
ghost use Rattle.sx_values.specs.SchemaFaults.{IsDeclarable, names_of};
ghost use Rattle.sx_values.specs.Catalogs.{declared_as, schema_of, declare_fault, adopt_fault, is_source, table_index_fault, index_fault, with_index, indexed, is_indexed_by, has_index, HasShortNames, IsCatalog};

use crate::checks::has_name;
use crate::{Column, Name, Names, Schema};
use std::alloc::{AllocError, Global};
use std::marker::Model;
use sx_lists::{Copied, List, Same, all_same, copies_of};

/// A table as the catalog knows it.
#[derive(Debug, Drop)]
pub struct Declared {
    pub name: Name,
    pub schema: Schema,
    /// The columns of each index, by name.
    pub indexes: List<Names>,
    /// Whether it was declared. Only then may it be the source of a transformation.
    pub source: bool,
}

/// Why a table or an index isn't put into a catalog.
#[derive(Clone, Copy, Debug, PartialEq, Eq)]
pub enum CatalogFault {
    Memory,
    /// The name, or the index, is there.
    Taken,
    /// There is no room for another.
    Many,
    /// No table has this name.
    NoTable,
    /// The table lacks a column of the index.
    NoColumn,
}

/// The tables that were declared or adopted, in the order in which they were put in.
#[derive(Debug, Drop)]
pub struct Catalog {
    alloc: Global,
    tables: Vec<Declared>,
}

impl Model for Catalog {
    ghost use Rattle.std.specs.Prelude.{List};
    ghost use Rattle.sx_values.specs.declared.catalog.Declared.{Declared as Table};
    ghost use Rattle.sx_values.specs.Catalogs.{IsCatalog};

    ghost Value = { List Table };

    ghost view = { λ c. c.tables.items };

    ghost invariant = { λ c. IsCatalog c.tables.items };
}

impl Catalog {
    /// The catalog without tables.
    pub fn new(alloc: Global) -> Self
        ensures { result ≡ [] }
    {
        Catalog {
            alloc,
            tables: Vec::new(alloc),
        }
    }

    /// Declares a table at the end, without indexes. A refusal changes nothing.
    pub fn declare(&mut self, name: Name, schema: Schema) -> Result<(), CatalogFault>
        requires declarable { IsDeclarable schema }
        requires short_names { HasShortNames schema }
        ensures fault { RefusesBy (declare_fault self.old name) CatalogFault.Memory result }
        ensures ok { OnOk result (self.new ≡ self.old
            ++ record { name = name; schema = schema; indexes = []; source = true } ∷ []) }
        ensures err { OnErr result (self.new ≡ self.old) }
    {
        let fault = fault_of_declared(&self.tables, &name);
        self.put_unless(fault, name, schema, true)
    }

    /// Puts in a table that isn't declared, with any schema: a new table of a transformation. A refusal changes nothing.
    pub fn adopt(&mut self, name: Name, schema: Schema) -> Result<(), CatalogFault>
        ensures fault { RefusesBy (adopt_fault self.old name) CatalogFault.Memory result }
        ensures ok { OnOk result (self.new ≡ self.old
            ++ record { name = name; schema = schema; indexes = []; source = false } ∷ []) }
        ensures err { OnErr result (self.new ≡ self.old) }
    {
        let fault = fault_of_adopted(&self.tables, &name);
        self.put_unless(fault, name, schema, false)
    }

    // Puts a table at the end, without indexes, where nothing is at fault. A refusal changes nothing.
    fn put_unless(
        &mut self,
        fault: Option<CatalogFault>,
        name: Name,
        schema: Schema,
        source: bool,
    ) -> Result<(), CatalogFault>
        requires new_name { fault ≡ None → declared_as self.old name ≡ None }
        requires declarable { IsTrue source → IsDeclarable schema }
        requires short_names { IsTrue source → HasShortNames schema }
        ensures fault { RefusesBy fault CatalogFault.Memory result }
        ensures ok { OnOk result (self.new ≡ self.old
            ++ record { name = name; schema = schema; indexes = []; source = source } ∷ []) }
        ensures err { OnErr result (self.new ≡ self.old) }
    {
        if let Some(fault) = fault {
            return Err(fault);
        }
        let indexes = List::new(self.alloc);
        let table = Declared {
            name,
            schema,
            indexes,
            source,
        };
        let Ok(()) = self.tables.push(table) else {
            return Err(CatalogFault::Memory);
        };
        Ok(())
    }

    /// Puts an index on these columns of a table behind its others. A refusal changes nothing.
    pub fn index(&mut self, name: &Name, columns: Names) -> Result<(), CatalogFault>
        ensures fault { RefusesBy (index_fault self.old name.now columns) CatalogFault.Memory result }
        ensures ok { OnOk result (self.new ≡ indexed self.old name.now columns) }
        ensures err { OnErr result (self.new ≡ self.old) }
    {
        let Some(place) = place_of(&self.tables, name) else {
            return Err(CatalogFault::NoTable);
        };
        add_index(&mut self.tables[place], columns)
    }

    /// The table of this name, or None where there is none.
    pub fn find(&self, name: &Name) -> Option<&Declared>
        ensures found { option_copied result ≡ declared_as self.now name.now }
        ensures named { IfSome result (λ table. table.now.name ≡ name.now) }
    {
        table_of(&self.tables, name)
    }

    /// The schema of the table of this name, or None where there is none.
    pub fn schema(&self, name: &Name) -> Option<&Schema>
        ensures { option_copied result ≡ schema_of self.now name.now }
    {
        match table_of(&self.tables, name) {
            Some(table) => Some(&table.schema),
            None => None,
        }
    }

    /// Whether the table of this name was declared, and so may be the source of a transformation.
    pub fn is_source(&self, name: &Name) -> bool
        ensures { result ≡ is_source self.now name.now }
    {
        match table_of(&self.tables, name) {
            Some(table) => table.source,
            None => false,
        }
    }

    /// Whether the table of this name is there and has an index on these columns, in this order.
    pub fn has_index(&self, name: &Name, columns: &Names) -> bool
        ensures { result ≡ has_index self.now name.now columns.now }
    {
        match table_of(&self.tables, name) {
            Some(table) => is_indexed_by(table, columns),
            None => false,
        }
    }

    /// The tables in order.
    pub fn tables(&self) -> &[Declared]
        ensures tables { result.now ≡ self.now }
        ensures catalog { IsCatalog self.now }
    {
        self.tables.as_slice()
    }
}

impl Copied for Catalog {
    fn copy(&self, alloc: Global) -> Result<Self, AllocError> {
        let tables = copies_of(alloc, &self.tables)?.into_vec();
        Ok(Catalog { alloc, tables })
    }
}

impl Same for Catalog {
    fn is_same(&self, other: &Self) -> bool {
        all_same(&self.tables, &other.tables)
    }
}

// The place from 0 of the table of this name, or None where there is none.
fn place_of(tables: &[Declared], name: &Name) -> Option<usize>
    ensures { result ≡ position (λ table. same_name table.name name.now) tables.now }
{
    tables.iter().position(|table| table.name == *name)
}

// The table of this name, or None where there is none.
fn table_of<'a>(tables: &'a [Declared], name: &Name) -> Option<&'a Declared>
    ensures { option_copied result ≡ declared_as tables.now name.now }
{
    match place_of(tables, name) {
        Some(place) => tables.get(place),
        None => None,
    }
}

// The fault of a table to be declared under this name, but for want of memory.
fn fault_of_declared(tables: &[Declared], name: &Name) -> Option<CatalogFault>
    ensures { result ≡ declare_fault tables.now name.now }
{
    if let Some(fault) = fault_of_adopted(tables, name) {
        return Some(fault);
    }
    if tables.len() >= 16 {
        return Some(CatalogFault::Many);
    }
    None
}

// The fault of a table to be adopted under this name, but for want of memory.
fn fault_of_adopted(tables: &[Declared], name: &Name) -> Option<CatalogFault>
    ensures { result ≡ adopt_fault tables.now name.now }
{
    match table_of(tables, name) {
        Some(_) => Some(CatalogFault::Taken),
        None => None,
    }
}

// Puts an index on these columns behind a table's others. A refusal changes nothing.
fn add_index(table: &mut Declared, columns: Names) -> Result<(), CatalogFault>
    ensures fault { RefusesBy (table_index_fault columns (Some table.old)) CatalogFault.Memory result }
    ensures ok { OnOk result (table.new ≡ with_index columns table.old) }
    ensures err { OnErr result (table.new ≡ table.old) }
{
    if let Some(fault) = fault_of_index(table, &columns) {
        return Err(fault);
    }
    let Ok(()) = table.indexes.push(columns) else {
        return Err(CatalogFault::Memory);
    };
    Ok(())
}

// The fault of a new index of a table, but for want of memory.
fn fault_of_index(table: &Declared, columns: &Names) -> Option<CatalogFault>
    ensures { result ≡ table_index_fault columns.now (Some table.now) }
{
    if !have_names(table.schema.columns(), columns.as_slice()) {
        return Some(CatalogFault::NoColumn);
    }
    if is_indexed_by(table, columns) {
        return Some(CatalogFault::Taken);
    }
    if table.indexes.len() >= 4 {
        return Some(CatalogFault::Many);
    }
    None
}

// Whether each of the names is that of a column.
fn have_names(columns: &[Column], names: &[Name]) -> bool
    ensures { result ≡ list_all (has_name (names_of columns.now)) names.now }
{
    names.iter().all(|name| has_name(columns, name))
}

// Whether a table has an index on these columns, in this order.
fn is_indexed_by(table: &Declared, columns: &Names) -> bool
    ensures { result ≡ is_indexed_by columns.now table.now }
{
    table
        .indexes
        .as_slice()
        .iter()
        .any(|index| *columns == *index)
}
