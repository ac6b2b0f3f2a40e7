//! Dwell: the sum of milliseconds, in 64 bits.
ghost use Rattle.std.specs.Prelude.{◌≡◌};
ghost use Rattle.measures.specs.Values.{step_ms, dwell};
ghost use Rattle.measures.specs.ValuesLemmas.{dwell_laws};

use crate::measure::Measure;
use crate::step::Step;
use std::cmp::Ordering;

/// The milliseconds that a step counts for, in every measure that counts them.
pub fn step_ms(step: Step) -> u64
    ensures { result ≡ step_ms step }
{
    u64::from(step.dwell)
}

impl Measure for u64 {
    ghost operations = { dwell };

    ghost lawful = { dwell_laws };

    fn nothing() -> u64 {
        0
    }

    fn of_step(step: Step) -> u64 {
        step_ms(step)
    }

    fn join(self, other: u64) -> Option<u64> {
        self.checked_add(other)
    }

    fn compare(self, other: u64) -> Ordering {
        self.cmp(&other)
    }
}
