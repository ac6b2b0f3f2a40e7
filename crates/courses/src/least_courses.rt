//! Least courses.
ghost use Rattle.charts.specs.Meaning.{Meaning, Lawful};
ghost use Rattle.courses.specs.Theorems.{LeastCourses};

use measures::measure::Measure;

/// Every walk has a direct one that is neither longer nor greater; so every mode of a chart has a short least course or is
/// dead, and its exits settle which.
pub fn least_courses_exist<M: Measure>()
    ensures { (c : Meaning) → Lawful c → LeastCourses M.operations c.exit c.modes }
{}
