//! Faults first: the sum of faults and the sum of milliseconds, 64 bits each. Fewer faults rank first, then fewer
//! milliseconds.
ghost use Rattle.measures.specs.Values.{faults_first};
ghost use Rattle.measures.specs.ValuesLemmas.{faults_first_laws};

use crate::dwell::step_ms;
use crate::measure::Measure;
use crate::step::Step;
use std::cmp::Ordering;

/// The faults of a course and its milliseconds. The derived order is the measure's: the fields rank in turn.
#[derive(Clone, Copy, Debug, PartialEq, Eq, PartialOrd, Ord)]
pub struct FaultsFirst {
    /// The sum of the faults.
    pub faults: u64,
    /// The sum of the milliseconds.
    pub ms: u64,
}

impl Measure for FaultsFirst {
    ghost operations = { faults_first };

    ghost lawful = { faults_first_laws };

    fn nothing() -> FaultsFirst {
        FaultsFirst { faults: 0, ms: 0 }
    }

    fn of_step(step: Step) -> FaultsFirst {
        FaultsFirst {
            faults: u64::from(step.faults),
            ms: step_ms(step),
        }
    }

    fn join(self, other: FaultsFirst) -> Option<FaultsFirst> {
        let faults = self.faults.checked_add(other.faults)?;
        let ms = self.ms.checked_add(other.ms)?;
        Some(FaultsFirst { faults, ms })
    }

    fn compare(self, other: FaultsFirst) -> Ordering {
        self.cmp(&other)
    }
}
