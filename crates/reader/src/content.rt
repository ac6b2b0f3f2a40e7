//! What a chart file says.
ghost use Rattle.std.specs.Prelude.{◌≡◌, ◌≢◌, Some, MatchResult};
ghost use Rattle.reader.specs.declared.fault.Cause.TheVariants.{NotOfForm};
ghost use Rattle.reader.specs.Rows.{letter_byte, letter_text};

use crate::fault::Cause;
use measures::step::Step;
use std::fmt;

/// A question's measure, by its letter in the file: d is dwell, f is faults first.
#[derive(Clone, Copy, Debug, PartialEq, Eq)]
pub enum Letter {
    Dwell,
    FaultsFirst,
}

impl TryFrom<u8> for Letter {
    ghost use Rattle.reader.specs.declared.content.Letter.{Letter};

    type Error = Cause;

    ghost try_from_gives = { λ byte letter. MatchResult letter (λ l. letter_byte l ≡ byte) (λ e. (e ≡ NotOfForm) × ((l : Letter) → letter_byte l ≢ byte)) };

    /// The letter that the byte writes; `NotOfForm` where it writes none.
    fn try_from(byte: u8) -> Result<Letter, Cause> {
        match char::from(byte) {
            'd' => Ok(Letter::Dwell),
            'f' => Ok(Letter::FaultsFirst),
            _ => Err(Cause::NotOfForm),
        }
    }
}

impl fmt::Display for Letter {
    ghost output = { λ letter. Some (letter_text letter) };

    fn fmt<W: fmt::Write>(&self, f: &mut fmt::Formatter<W>) -> fmt::Result {
        f.write_str(match self {
            Letter::Dwell => "d",
            Letter::FaultsFirst => "f",
        })
    }
}

/// An exit line: the step leads from one mode to another.
#[derive(Clone, Copy, Debug, PartialEq, Eq)]
pub struct ExitLine {
    pub from: u32,
    pub to: u32,
    pub step: Step,
}

/// A lock line: the mode's exit of that number is locked.
// Not the `Lock` of charts, which is what a chart holds and no part of what charts offers: one type would make it public.
#[derive(Clone, Copy, Debug, PartialEq, Eq)]
pub struct LockLine {
    pub mode: u32,
    pub exit: u32,
}

/// A question line: the first `k` courses, 0 to 99, from `start` to `watched`, least first by the letter's measure.
#[derive(Clone, Copy, Debug, PartialEq, Eq)]
pub struct Question {
    pub start: u32,
    pub watched: u32,
    pub letter: Letter,
    pub k: u32,
}

/// A whole file: the modes' names, then its exit lines, its lock lines and its questions.
#[derive(Debug, Drop)]
pub struct Content {
    pub names: Vec<String>,
    pub exits: Vec<ExitLine>,
    pub locks: Vec<LockLine>,
    pub questions: Vec<Question>,
}
