// Schemas, and the rows and keys that they admit.
ghost use Rattle.std.specs.Prelude.{◌≡◌, ◌<◌, All, nat_eq, length, IfOk, OnOk};
ghost use Rattle.std.specs.List.{IsDistinct};
ghost use Rattle.sx_lists.specs.Answers.{RefusesBy, unless};
ghost use Rattle.sx_values.specs.Layouts.{Admits, AdmitsKey, row_fault, key_fault, key_of, projected, IsLayout};
ghost use Rattle.sx_values.specs.SchemaFaults.{schema_fault, wide_fault, IsDeclarable};

use crate::checks::{checked_columns, checked_key, nullable_fault};
use crate::faults::{are_null, are_null_at, first_fault, first_key_fault};
use crate::{Columns, Key, Name, Numbers, Row, Value};
use std::alloc::{AllocError, Global};
use std::marker::Model;
use sx_lists::{Copied, List, Same};

/// What a column holds, Null apart.
#[derive(Clone, Copy, Debug, PartialEq, Eq)]
pub enum Kind {
    Int,
    Text,
}

/// A column of a table.
#[derive(Debug, Drop)]
pub struct Column {
    pub name: Name,
    pub kind: Kind,
    /// Whether it takes Null.
    pub nullable: bool,
}

/// Why a row or a key isn't admitted. Columns count from 1, within the row or within the key.
#[derive(Clone, Copy, Debug, PartialEq, Eq)]
pub enum BadRow {
    /// Another number of values than of columns.
    Width,
    /// The value of this column is of another kind.
    Kind { column: u64 },
    /// The value of this column is Null, which it doesn't take.
    Null { column: u64 },
    /// Each value of the key is Null.
    AllNull,
}

/// Why columns and a key are no schema.
#[derive(Debug, Drop)]
pub enum SchemaFault {
    Memory,
    NoColumns,
    TooManyColumns,
    /// This name is that of an earlier column too.
    RepeatedName { name: Name },
    NoKey,
    LongKey,
    /// This key column, counted from 1 among all columns, takes Null.
    NullableKey { column: u64 },
}

/// The columns of a table, and which of them are its key.
#[derive(Debug, Drop)]
pub struct Schema {
    columns: Columns,
    key: Numbers,
}

impl Model for Schema {
    ghost use Rattle.sx_values.specs.Layouts.{Layout, IsLayout};

    ghost Value = { Layout };

    ghost view = { λ s. record { columns = s.columns; key = s.key } };

    ghost invariant = { λ s. IsLayout (record { columns = s.columns; key = s.key }) };
}

impl Schema {
    /// The schema of a declared table. The key has places of columns, counted from 0.
    pub fn new(_alloc: Global, columns: Columns, key: Numbers) -> Result<Schema, SchemaFault>
        requires within { All (λ place. place < length columns) key }
        requires distinct { IsDistinct nat_eq key }
        ensures schema { IfOk result (λ schema. schema ≡ record { columns = columns; key = key }) }
        ensures fault { RefusesBy (schema_fault columns key) SchemaFault.Memory result }
        ensures exact { result ≡ unless (schema_fault columns key) (record { columns = columns; key = key }) }
        ensures declarable { IfOk result IsDeclarable }
    {
        let columns = checked_columns(columns, 16)?;
        let key = checked_key(key, 3)?;
        match nullable_fault(columns.as_slice(), key.as_slice()) {
            Some(fault) => Err(fault),
            None => Ok(Schema { columns, key }),
        }
    }

    /// The schema of a new table, which may be wider and may have a key with Null.
    pub fn wide(_alloc: Global, columns: Columns, key: Numbers) -> Result<Schema, SchemaFault>
        requires within { All (λ place. place < length columns) key }
        requires distinct { IsDistinct nat_eq key }
        ensures schema { IfOk result (λ schema. schema ≡ record { columns = columns; key = key }) }
        ensures fault { RefusesBy (wide_fault columns key) SchemaFault.Memory result }
        ensures exact { result ≡ unless (wide_fault columns key) (record { columns = columns; key = key }) }
    {
        let columns = checked_columns(columns, 32)?;
        let key = checked_key(key, 6)?;
        Ok(Schema { columns, key })
    }

    /// The columns in order.
    pub fn columns(&self) -> &[Column]
        ensures columns { result.now ≡ self.now.columns }
        ensures layout { IsLayout self.now }
    {
        self.columns.as_slice()
    }

    /// The places of the key's columns, counted from 0, in key order.
    pub fn key(&self) -> &[u64]
        ensures key { result.now ≡ self.now.key }
        ensures layout { IsLayout self.now }
    {
        self.key.as_slice()
    }

    /// Whether the table takes a row; else the row's first fault.
    pub fn admits(&self, row: &Row) -> Result<(), BadRow>
        ensures fault { result ≡ unless (row_fault self.now row.now) tt }
        ensures admitted { OnOk result (Admits self.now row.now) }
    {
        let (columns, values) = (self.columns.as_slice(), row.as_slice());
        if values.len() != columns.len() {
            return Err(BadRow::Width);
        }
        match first_fault(columns, values, 1) {
            Some(fault) => Err(fault),
            None if are_null_at(values, self.key.as_slice()) => Err(BadRow::AllNull),
            None => Ok(()),
        }
    }

    /// Whether the table's rows may have a key; else the key's first fault.
    #[tactic(auto, using(crate::proofs::SchemaLaws::length_columns_at))]
    pub fn admits_key(&self, key: &Key) -> Result<(), BadRow>
        ensures fault { result ≡ unless (key_fault self.now key.now) tt }
        ensures admitted { OnOk result (AdmitsKey self.now key.now) }
    {
        let (places, values) = (self.key.as_slice(), key.as_slice());
        if values.len() != places.len() {
            return Err(BadRow::Width);
        }
        match first_key_fault(self.columns.as_slice(), places, values, 1) {
            Some(fault) => Err(fault),
            None if are_null(values) => Err(BadRow::AllNull),
            None => Ok(()),
        }
    }

    /// The key of a row.
    pub fn key_of(&self, alloc: Global, row: &Row) -> Result<Key, AllocError>
        requires { Admits self.now row.now }
        ensures key { IfOk result (λ key. key ≡ key_of self.now row.now) }
        ensures admitted { IfOk result (AdmitsKey self.now) }
    {
        key_at(alloc, row.as_slice(), self.key.as_slice())
    }

    /// The values of a row at these places, counted from 0.
    pub fn project(&self, alloc: Global, row: &Row, places: &Numbers) -> Result<Key, AllocError>
        requires admitted { Admits self.now row.now }
        requires within { All (λ place. place < length self.now.columns) places.now }
        ensures { IfOk result (λ key. key ≡ projected places.now row.now) }
    {
        key_at(alloc, row.as_slice(), places.as_slice())
    }
}

// The key of a row's values at these places, counted from 0.
fn key_at(alloc: Global, row: &[Value], places: &[u64]) -> Result<Key, AllocError>
    requires { All (λ place. place < length row.now) places.now }
    ensures { IfOk result (λ key. key ≡ projected places.now row.now) }
{
    match places {
        [place] => Ok(Key::of_one(alloc, row[*place as usize].copy(alloc)?)),
        places => Ok(Key::from_values(values_at(alloc, row, places)?)),
    }
}

// Copies of a row's values at these places, counted from 0.
fn values_at(alloc: Global, row: &[Value], places: &[u64]) -> Result<List<Value>, AllocError>
    requires { All (λ place. place < length row.now) places.now }
    ensures { IfOk result (λ values. values ≡ projected places.now row.now) }
{
    let mut values = Vec::with_capacity(alloc, places.len())?;
    for place in places {
        values.push(row[*place as usize].copy(alloc)?)?;
    }
    Ok(List::from_vec(values))
}

impl Copied for Schema {
    fn copy(&self, alloc: Global) -> Result<Self, AllocError> {
        let columns = self.columns.copy(alloc)?;
        let key = self.key.copy(alloc)?;
        Ok(Schema { columns, key })
    }
}

impl Same for Schema {
    fn is_same(&self, other: &Self) -> bool {
        self.columns.is_same(&other.columns) && self.key.is_same(&other.key)
    }
}
