//! The lines of scripts, each by itself: how one is read from its text, and its one text.
#![tactic(auto)]

mod columns;
mod fields;
mod forms;
mod laws;
mod line;
mod print;
#[cfg(test)]
mod tests;
mod text;

pub use forms::line_of;
pub use laws::lines_are_read_back;
pub use line::Line;
pub use print::put_line;
pub use sx_journal::PropLine;
pub use text::{are_printable, is_passed_over, next_line};
