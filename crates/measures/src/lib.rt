//! Measures: what a step of a course counts for, and what a row of steps comes to.
#![tactic(auto)]

pub mod dwell;
pub mod faults_first;
pub mod measure;
pub mod row;
pub mod step;
