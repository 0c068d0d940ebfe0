//! Rows and keys as CSV records, numbers and words of a line.
#![tactic(auto)]

mod fault;
mod laws;
mod number;
mod printing;
mod reader;
mod reading;

pub use fault::FieldFault;
pub use laws::{
    ints_are_read_back, keys_are_read_back, numbers_are_read_back, records_are_printable,
    rows_are_read_back, rows_read_are_values,
};
pub use number::{int_of, number_of};
pub use printing::{put_record, text_of, text_of_key};
pub use reader::Reader;
pub use reading::{key_of_text, row_of};

#[cfg(test)]
mod tests;
