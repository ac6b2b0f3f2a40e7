//! Charts: the modes of a pitch controller, and where the exits of each lead.
#![tactic(auto)]

pub mod blade;
mod blades;
pub mod chart;
pub mod fault;
pub mod lead;
pub mod lock;
mod locks;
pub mod table;
mod table_check;
#[cfg(test)]
mod tests;
