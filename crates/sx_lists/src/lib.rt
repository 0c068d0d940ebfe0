//! Lists that a contract sees as lists, and copies that are equal to their originals.
#![tactic(auto)]

mod compare;
mod copies;
mod lists;
mod reserved;
mod same;
#[cfg(test)]
mod tests;

pub use copies::{Copied, bytes_of, copies_of};
pub use lists::List;
pub use reserved::Reserved;
pub use same::{Same, all_same};
