//! The operators that turn old tables into new ones.
#![tactic(auto)]

mod copies;
mod faults;
mod part;
mod spec;
#[cfg(test)]
mod tests;

pub use part::passes;
pub use spec::{Cmp, Spec, SpecFault, Target, Test};
use sx_lists::List;
use sx_values::Row;

/// Comparisons, all of which have to hold.
pub type Tests = List<Test>;

/// New tables, in order.
pub type Targets = List<Target>;

/// The rows of a table, in order.
pub type Rows = List<Row>;

/// The rows of several tables, in order.
pub type RowLists = List<Rows>;
