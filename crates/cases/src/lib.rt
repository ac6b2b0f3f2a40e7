//! Worked cases: small charts, and the first courses, values, chains and offers that they have. They stand in a crate of
//! their own, above all that they speak of.
#![tactic(auto)]

ghost use Rattle.cases.specs.Cases.{WorkedCases};

/// The worked cases, all of them: `WorkedCases` lists them.
pub fn worked_cases_hold()
    ensures { WorkedCases }
{}
