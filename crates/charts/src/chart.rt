//! What can be asked of any chart.
ghost use Rattle.std.specs.Prelude.{◌≡◌};
ghost use Rattle.charts.specs.Meaning.{Meaning, Lawful};

use crate::lead::Lead;

/// A chart answers any question about any number, and asking alters nothing: each answer is that of its meaning.
pub trait Chart {
    /// What the functions below answer, for whatever numbers.
    ghost means: { Self → Meaning };

    /// How many modes there are.
    fn modes(&self) -> u32
        ensures { result ≡ (means self.now).modes };

    /// How many exits a mode has; none where there is no such mode.
    fn exits(&self, mode: u32) -> u32
        ensures { result ≡ (means self.now).exits mode };

    /// Where an exit leads; `None` where it does not exist or is shut.
    fn exit(&self, mode: u32, exit: u32) -> Option<Lead>
        ensures { result ≡ (means self.now).exit mode exit };

    /// 1 to 4,096 modes of 0 to 64 exits, and every exit leads to one of them.
    ghost lawful: { (c : Self) → Lawful (means c) };
}
