//! What is loaded from a chart file.
use crate::content::Question;
use charts::lock::LockChart;
use charts::table::TableChart;

/// The modes' names, the chart with its locks, the questions, and how many exit and lock lines the file has.
#[derive(Drop)]
pub struct Loaded {
    pub names: Vec<String>,
    pub chart: LockChart<TableChart>,
    pub questions: Vec<Question>,
    pub exit_lines: u32,
    pub lock_lines: u32,
}
