//! Scripts: the bytes that they are read from, their text, and what their lines ask together.
#![tactic(auto)]

mod fault;
mod parser;
mod plan;
mod print;
#[cfg(test)]
mod reading_tests;
mod script;
#[cfg(test)]
mod tests;

pub use fault::{ScriptCause, ScriptFault};
pub use plan::{Pace, Paces};
pub use print::{print_script, put_script};
pub use script::{Script, parse_script};
pub use sx_lines::{Line, PropLine, put_line};
