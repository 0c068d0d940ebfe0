//! The locks that transactions hold on the keys of tables, shared or exclusive.
#![tactic(auto)]

mod holders;
mod keys;
mod locks;
mod mode;
mod places;
mod tables;
#[cfg(test)]
mod tests;

pub use locks::LockTable;
pub use mode::{Asked, Mode};
