//! Tables of rows in key order, walked in turns, and lists of named tables.
#![tactic(auto)]

mod seen;
mod table;
mod tables;
#[cfg(test)]
mod tests;
mod walk;

pub use seen::{Seen, Seens};
pub use table::Table;
pub use tables::{NamedTable, Tables};
pub use walk::{Cursor, Walked};
