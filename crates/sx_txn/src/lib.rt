//! Transactions over tables: locks, writes, undo and commit, with the log that tells them.
#![tactic(auto)]

mod answers;
mod homes;
mod lives;
mod lsns;
mod manager;
mod patch;
mod reads;
#[cfg(test)]
mod tests;
mod undo;
mod writes;

pub use answers::{Change, TxnRead, TxnUndo, TxnWrite};
pub use manager::Manager;
