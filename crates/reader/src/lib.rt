//! The reader: from a chart file's bytes to what the file says, or to the first slip in it.
#![tactic(auto)]

pub mod content;
pub mod fault;
pub mod file;
mod layout;
pub mod load;
pub mod loaded;
mod row;
mod section;
#[cfg(test)]
mod tests;
mod text;
