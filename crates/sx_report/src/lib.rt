//! Reports: the script, the journal, the log and the tables as lines of text.
#![tactic(auto)]

mod end;
mod entry;
mod laws;
mod record;
mod report;
mod tables;
#[cfg(test)]
mod tests;
mod words;

pub use end::ReportEnd;
pub use laws::{entries_of_a_range_are_numbered, records_of_a_range_are_numbered};
pub use record::print_log_line;
pub use report::{print_head, print_report};
pub use tables::print_tables;
