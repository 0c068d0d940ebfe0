//! The journal: every event of the machine with its reply.
#![tactic(auto)]

mod actors;
mod copies;
mod course;
#[cfg(test)]
mod course_tests;
mod entry;
#[cfg(test)]
mod tests;

pub use actors::own;
pub use course::{Command, Commands, Course, Standing};
pub use entry::{Entry, Event, PropLine, Reply, Request, What};
use sx_lists::Reserved;

/// The journal, seen newest first. Entries count from 1.
pub type Journal = Reserved<Entry>;
