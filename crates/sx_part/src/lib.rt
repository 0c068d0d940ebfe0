//! The image of a horizontal split: both new tables, kept beside the sources while clients write.
#![tactic(auto)]

mod image;
mod parts;
mod stamps;
#[cfg(test)]
mod tests;
mod uncounted;

pub use image::PartImage;
