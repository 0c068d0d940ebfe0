//! The copy of a transformation's sources, as the plain list that the rules speak of.
#![tactic(auto)]

mod change;
mod list;
#[cfg(test)]
mod tests;

pub use change::{Change, change_of};
pub use list::{CopyList, CopyRow};
