//! The lock chart: any chart with some of its exits shut.
ghost use Rattle.std.specs.Prelude.{◌≡◌, ◌≤◌, [], length, MatchResult};
ghost use Rattle.std.specs.Result.{result_err};
ghost use Rattle.charts.specs.Locks.{with_lock};
ghost use Rattle.charts.specs.Meaning.{SameExits};

use crate::chart::Chart;
use crate::fault::LockFault;
use crate::lead::Lead;
use crate::locks::{Lock, MOST_LOCKS};
use arrayvec::ArrayVec;

/// A chart with up to 32 locks on its exits, oldest first.
#[derive(Drop)]
pub struct LockChart<C> {
    below: C,
    locks: ArrayVec<Lock, MOST_LOCKS>,
    // Said here, since a clause sees an `ArrayVec` as a list: its capacity is known only behind a call on it.
    ghost few: { length locks.items ≤ 32 },
}

impl<C: Chart> LockChart<C> {
    // In the `impl`s and not at the head of the file, whose imports the ghost field has too: these name `LockChart`, and would go in a circle.
    ghost use Rattle.charts.specs.LockMeaning.{locks_of, lock_on, chart_meaning, lock_fault, Shuts};

    /// The chart itself, with no locks.
    pub fn new(below: C) -> Self
        ensures below { result.below ≡ below }
        ensures no_locks { locks_of result ≡ [] }
        ensures same_exits { SameExits (C.Chart.means below) (chart_meaning C.Chart.means result) }
    {
        LockChart {
            below,
            locks: ArrayVec::new(),
        }
    }

    /// Shuts an exit. An exit that is locked stays so, and a refusal changes nothing.
    pub fn lock(&mut self, mode: u32, exit: u32) -> Result<(), LockFault>
        ensures answer { result_err result ≡ lock_fault (C.Chart.means self.old.below) (locks_of self.old) mode exit }
        ensures locks { MatchResult result (λ _. locks_of self.new ≡ with_lock (locks_of self.old) (lock_on mode exit)) (λ _. locks_of self.new ≡ locks_of self.old) }
        ensures same_below { self.new.below ≡ self.old.below }
        ensures exits { MatchResult result (λ _. Shuts mode exit (chart_meaning C.Chart.means self.old) (chart_meaning C.Chart.means self.new)) (λ _. SameExits (chart_meaning C.Chart.means self.old) (chart_meaning C.Chart.means self.new)) }
    {
        if mode >= self.below.modes() {
            return Err(LockFault::UnknownMode);
        }
        if exit >= self.below.exits(mode) {
            return Err(LockFault::UnknownExit);
        }
        let lock = Lock { mode, exit };
        if self.locks.contains(&lock) {
            return Ok(());
        }
        self.locks.try_push(lock).map_err(|_| LockFault::LocksFull)
    }
}

impl<C: Chart> Chart for LockChart<C> {
    ghost use Rattle.charts.specs.LockMeaning.{locks_of, chart_meaning};
    ghost use Rattle.charts.specs.LockLaws.{lock_lawful};

    ghost means = { chart_meaning C.Chart.means };

    ghost lawful = { λ c. lock_lawful (C.Chart.means c.below) (locks_of c) (C.Chart.lawful c.below) };

    fn modes(&self) -> u32 {
        self.below.modes()
    }

    fn exits(&self, mode: u32) -> u32 {
        self.below.exits(mode)
    }

    fn exit(&self, mode: u32, exit: u32) -> Option<Lead> {
        // Not `contains`: with it an exit took up to twice as long, though less without a lock in one caller.
        if self.locks.iter().any(|held| *held == Lock { mode, exit }) {
            None
        } else {
            self.below.exit(mode, exit)
        }
    }
}
