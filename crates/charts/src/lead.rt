//! Where an open exit leads.
use measures::step::Step;

/// Where an open exit leads, and by what step.
#[derive(Clone, Copy, Debug, PartialEq, Eq)]
pub struct Lead {
    /// The mode led to.
    pub to: u32,
    /// What the step costs.
    pub step: Step,
}
