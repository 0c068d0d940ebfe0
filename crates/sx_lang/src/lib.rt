//! The texts of transformations: reading and printing.
#![tactic(auto)]

mod constant;
mod fault;
mod laws;
mod parse;
mod parts;
mod print;

pub use fault::LangFault;
pub use laws::{specs_are_read_back, specs_have_one_text};
pub use parse::parse_spec;
pub use print::print_spec;

#[cfg(test)]
mod tests;
