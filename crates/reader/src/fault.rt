//! Why a file is refused.
// Texts and conversions are written by hand: what thiserror's derives write has no contract, and a report rests on the texts and on
// the errors that `?` makes. Each enum has its own, and its own `number`, since Rust has no `impl` for all enums.
ghost use Rattle.std.specs.Prelude.{◌≡◌, Some, option_map};
ghost use Rattle.reader.specs.declared.fault.LoadFault.TheVariants.{Chart as OfChart, Lock as OfLock, NoMemory as OfMemory};
ghost use Rattle.reader.specs.declared.fault.ReadFault.TheVariants.{NoMemory};
ghost use Rattle.reader.specs.Faults.{number_of, passed_on, cause_text, with_line, declined_text, read_text, load_text};

use charts::fault::{ChartFault, LockFault};
use std::alloc::AllocError;
use std::error::Error;
use std::fmt;

/// What is wrong with a file's text.
#[derive(Clone, Copy, Debug, PartialEq, Eq)]
pub enum Cause {
    /// The file has over 16,384 bytes.
    TooLong = 1,
    /// The line is not of its form.
    NotOfForm = 2,
    /// A count, or how many courses a question asks for, is out of its range.
    OutOfRange = 3,
    /// An exit line leaves no mode, or a mode below that of the line before.
    FromMode = 4,
    /// The file ends before its last section is full.
    Short = 5,
    /// Something stands behind the last line.
    Excess = 6,
}

impl Cause {
    /// The cause's number, 1 to 6.
    pub fn number(&self) -> u32
        ensures { result ≡ number_of self.now }
    {
        *self as u32
    }
}

impl fmt::Display for Cause {
    ghost output = { λ cause. Some (cause_text cause) };

    fn fmt<W: fmt::Write>(&self, f: &mut fmt::Formatter<W>) -> fmt::Result {
        write!(f, "reading {}", self.number())
    }
}

impl Error for Cause {}

/// A fault and the line of the file where it shows. Lines count from 1; a file that is too long shows it at 0.
#[derive(Clone, Copy, Debug, PartialEq, Eq)]
pub struct At<F> {
    pub fault: F,
    pub line: u32,
}

impl<F: fmt::Display> fmt::Display for At<F> {
    ghost output = { λ at. option_map (λ text. with_line text at.line) (F.output at.fault) };

    fn fmt<W: fmt::Write>(&self, f: &mut fmt::Formatter<W>) -> fmt::Result {
        let At { fault, line } = self;
        write!(f, "{fault} line {line}")
    }
}

impl<F: Error + Copy> Error for At<F> {}

/// A lock that is declined: why, and which of the file's locks it is.
#[derive(Clone, Copy, Debug, PartialEq, Eq)]
pub struct DeclinedLock {
    pub fault: LockFault,
    pub lock: u32,
}

impl fmt::Display for DeclinedLock {
    ghost output = { λ declined. Some (declined_text declined) };

    fn fmt<W: fmt::Write>(&self, f: &mut fmt::Formatter<W>) -> fmt::Result {
        let DeclinedLock { fault, lock } = self;
        write!(f, "{fault} lock {lock}")
    }
}

impl Error for DeclinedLock {}

/// The text is refused, or memory is wanting.
#[derive(Clone, Copy, Debug, PartialEq, Eq)]
pub enum ReadFault {
    Slip(At<Cause>),
    NoMemory,
}

impl fmt::Display for ReadFault {
    ghost output = { λ fault. Some (read_text fault) };

    fn fmt<W: fmt::Write>(&self, f: &mut fmt::Formatter<W>) -> fmt::Result {
        match self {
            ReadFault::Slip(at) => write!(f, "{at}"),
            ReadFault::NoMemory => write!(f, "out of memory"),
        }
    }
}

impl Error for ReadFault {}

impl From<AllocError> for ReadFault {
    ghost from_gives = { λ _ r. r ≡ NoMemory };

    fn from(_: AllocError) -> ReadFault {
        ReadFault::NoMemory
    }
}

/// Why no chart is loaded from a file: the slip in its text, or the fault of its chart or of one of its locks, each with
/// its line; or memory is wanting.
#[derive(Clone, Copy, Debug, PartialEq, Eq)]
pub enum LoadFault {
    Reading(At<Cause>),
    Chart(At<ChartFault>),
    Lock(At<DeclinedLock>),
    NoMemory,
}

impl fmt::Display for LoadFault {
    ghost output = { λ fault. Some (load_text fault) };

    fn fmt<W: fmt::Write>(&self, f: &mut fmt::Formatter<W>) -> fmt::Result {
        match self {
            LoadFault::Reading(at) => write!(f, "fault {at}"),
            LoadFault::Chart(at) => write!(f, "fault {at}"),
            LoadFault::Lock(at) => write!(f, "fault {at}"),
            LoadFault::NoMemory => write!(f, "out of memory"),
        }
    }
}

impl Error for LoadFault {}

impl From<ReadFault> for LoadFault {
    ghost from_gives = { λ e r. r ≡ passed_on e };

    fn from(fault: ReadFault) -> LoadFault {
        match fault {
            ReadFault::Slip(at) => LoadFault::Reading(at),
            ReadFault::NoMemory => LoadFault::NoMemory,
        }
    }
}

impl From<AllocError> for LoadFault {
    ghost from_gives = { λ _ r. r ≡ OfMemory };

    fn from(_: AllocError) -> LoadFault {
        LoadFault::NoMemory
    }
}

impl From<At<ChartFault>> for LoadFault {
    ghost from_gives = { λ e r. r ≡ OfChart e };

    fn from(fault: At<ChartFault>) -> LoadFault {
        LoadFault::Chart(fault)
    }
}

impl From<At<DeclinedLock>> for LoadFault {
    ghost from_gives = { λ e r. r ≡ OfLock e };

    fn from(fault: At<DeclinedLock>) -> LoadFault {
        LoadFault::Lock(fault)
    }
}
