//! Chains of detours, and offers.
ghost use Rattle.std.specs.Prelude.{ℕ};
ghost use Rattle.charts.specs.Meaning.{Meaning, Lawful};
ghost use Rattle.courses.specs.Theorems.{ChainsAreCourses, OffersAreChildren};

use measures::measure::Measure;

/// Every course has one chain of detours, and every chain belongs to one course.
pub fn chains_are_courses<M: Measure>()
    ensures { (c : Meaning) → Lawful c → (s t : ℕ) → ChainsAreCourses M.operations c.exit s t }
{}

/// The offers of a course are the courses with one detour more, and have one list; every course but the least is offered
/// once, and stands after the course that offers it.
pub fn offers_are_children<M: Measure>()
    ensures { (c : Meaning) → Lawful c → (s t : ℕ) → OffersAreChildren M.operations c.exit s t }
{}
