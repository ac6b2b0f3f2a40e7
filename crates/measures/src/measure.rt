//! What a measure is: a value for each step, the value of nothing, a join and an order, known by their laws alone.
ghost use Rattle.std.specs.Prelude.{◌≡◌};
ghost use Rattle.measures.specs.Laws.{Laws, ranked};
ghost use Rattle.measures.specs.Operations.{Operations};

use crate::step::Step;
use std::cmp::Ordering;

/// A measure of courses. Its values are what the steps of a course come to, one joined to the next.
pub trait Measure: Copy {
    /// What the functions below answer, for whatever arguments.
    ghost operations: { Operations Self };

    /// The value of no step at all.
    fn nothing() -> Self
        ensures { result ≡ operations.nothing };

    /// The value of one step.
    fn of_step(step: Step) -> Self
        ensures { result ≡ operations.step_value step };

    /// The value of two parts, one after the other; `None` where it does not exist.
    fn join(self, other: Self) -> Option<Self>
        ensures { result ≡ operations.joined self other };

    /// How one value ranks beside another.
    // Not `Ord` as a supertrait: a measure would owe four impls of std and one law more, that `cmp` ranks as the operations do.
    fn compare(self, other: Self) -> Ordering
        ensures { result ≡ ranked operations self other };

    /// The laws: an order in which nothing is least, and a join that keeps it and does not mind the bracketing.
    ghost lawful: { Laws operations };
}
