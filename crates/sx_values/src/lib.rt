//! Values, texts, names, rows, keys, schemas and the catalog of declared tables.
#![tactic(auto)]

mod catalog;
mod checks;
mod faults;
mod key;
mod name;
mod plain;
mod row;
mod schema;
mod shared;
#[cfg(test)]
mod tests;
mod text;
mod value;

pub use catalog::{Catalog, CatalogFault, Declared};
pub use key::Key;
pub use name::{Name, NameFault};
pub use row::Row;
pub use schema::{BadRow, Column, Kind, Schema, SchemaFault};
use sx_lists::List;
pub use text::{Text, TextFault};
pub use value::Value;

/// The columns of a schema, in order.
pub type Columns = List<Column>;

/// Places or other numbers, in order.
pub type Numbers = List<u64>;

/// Names, in order.
pub type Names = List<Name>;
