// Copies of plain data, and tests of sameness.
use crate::{BadRow, CatalogFault, Column, Declared, Kind, NameFault, SchemaFault, TextFault};
use std::alloc::{AllocError, Global};
use sx_lists::{Copied, Same};

impl Copied for TextFault {
    fn copy(&self, _alloc: Global) -> Result<Self, AllocError> {
        Ok(*self)
    }
}

impl Copied for NameFault {
    fn copy(&self, _alloc: Global) -> Result<Self, AllocError> {
        Ok(*self)
    }
}

impl Copied for CatalogFault {
    fn copy(&self, _alloc: Global) -> Result<Self, AllocError> {
        Ok(*self)
    }
}

impl Copied for Kind {
    fn copy(&self, _alloc: Global) -> Result<Self, AllocError> {
        Ok(*self)
    }
}

impl Same for Kind {
    fn is_same(&self, other: &Self) -> bool {
        matches!(
            (self, other),
            (Kind::Int, Kind::Int) | (Kind::Text, Kind::Text)
        )
    }
}

impl Copied for BadRow {
    fn copy(&self, _alloc: Global) -> Result<Self, AllocError> {
        Ok(*self)
    }
}

impl Same for BadRow {
    fn is_same(&self, other: &Self) -> bool {
        match (self, other) {
            (BadRow::Width, BadRow::Width) | (BadRow::AllNull, BadRow::AllNull) => true,
            (BadRow::Kind { column: one }, BadRow::Kind { column: other })
            | (BadRow::Null { column: one }, BadRow::Null { column: other }) => one == other,
            _ => false,
        }
    }
}

impl Copied for Column {
    fn copy(&self, alloc: Global) -> Result<Self, AllocError> {
        Ok(Column {
            name: self.name.copy(alloc)?,
            kind: self.kind,
            nullable: self.nullable,
        })
    }
}

impl Same for Column {
    fn is_same(&self, other: &Self) -> bool {
        self.name.is_same(&other.name)
            && self.kind.is_same(&other.kind)
            && self.nullable == other.nullable
    }
}

impl Copied for SchemaFault {
    fn copy(&self, alloc: Global) -> Result<Self, AllocError> {
        Ok(match self {
            SchemaFault::Memory => SchemaFault::Memory,
            SchemaFault::NoColumns => SchemaFault::NoColumns,
            SchemaFault::TooManyColumns => SchemaFault::TooManyColumns,
            SchemaFault::RepeatedName { name } => SchemaFault::RepeatedName {
                name: name.copy(alloc)?,
            },
            SchemaFault::NoKey => SchemaFault::NoKey,
            SchemaFault::LongKey => SchemaFault::LongKey,
            SchemaFault::NullableKey { column } => SchemaFault::NullableKey { column: *column },
        })
    }
}

impl Copied for Declared {
    fn copy(&self, alloc: Global) -> Result<Self, AllocError> {
        Ok(Declared {
            name: self.name.copy(alloc)?,
            schema: self.schema.copy(alloc)?,
            indexes: self.indexes.copy(alloc)?,
            source: self.source,
        })
    }
}

impl Same for Declared {
    fn is_same(&self, other: &Self) -> bool {
        self.name.is_same(&other.name)
            && self.schema.is_same(&other.schema)
            && self.indexes.is_same(&other.indexes)
            && self.source == other.source
    }
}
