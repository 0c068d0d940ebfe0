//! The machine: it answers each event by the journal, over a manager of transactions, and makes the new tables.
#![tactic(auto)]

mod client;
mod clients;
mod closed;
mod machine;
mod make;
mod rows;
mod scan;
mod start;
mod switch;
mod turns;
mod uncounted;

pub use machine::{Core, CoreFault};
pub use make::MakeFault;
pub use scan::{FetchOut, ScanOut};
pub use switch::{Cause, SwitchOut};
pub use sx_log::{Load, Loads};

#[cfg(test)]
mod tests;
