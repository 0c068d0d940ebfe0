//! The log: records of writes and of what ends or marks them, and the rows that they leave.
#![tactic(auto)]

mod record;
#[cfg(test)]
mod tests;

pub use record::{Body, Load, Rec};
use sx_lists::{List, Reserved};

/// Loaded rows, in order.
pub type Loads = List<Load>;

/// Records, the oldest first.
pub type Recs = List<Rec>;

/// The log, seen newest first. A record's LSN is its place from 1.
pub type Log = Reserved<Rec>;
