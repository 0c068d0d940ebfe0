//! The image of a transformation: its new tables, kept beside the sources while clients write.
#![tactic(auto)]

mod image;
#[cfg(test)]
mod tests;

pub use image::Image;
