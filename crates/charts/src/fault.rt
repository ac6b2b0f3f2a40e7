//! Why a table is no chart, and why a lock is declined.
// The texts are written by hand: those of thiserror's derive have no contract, and a report rests on them. Each enum
// has its own, and its own `number`, since Rust has no `impl` for all enums.
ghost use Rattle.std.specs.Prelude.{◌≡◌, Some};
ghost use Rattle.charts.specs.Faults.{chart_number, chart_place, chart_text, lock_number, lock_text};

use std::error::Error;
use std::fmt;

/// Why a table of offsets and entries is refused as a chart.
#[derive(Clone, Copy, Debug, PartialEq, Eq)]
pub enum ChartFault {
    /// There are not 2 to 4,097 offsets.
    OffsetCount,
    /// The least offset that is not good.
    BadOffset { offset: u32 },
    /// The least entry that leads to no mode.
    UnknownTarget { entry: u32 },
}

impl ChartFault {
    /// The fault's number, 10 to 12.
    // Not by `as u32`, as a lock's fault: a cast is for enums whose cases hold nothing.
    pub fn number(&self) -> u32
        ensures { result ≡ chart_number self.now }
    {
        match *self {
            ChartFault::OffsetCount => 10,
            ChartFault::BadOffset { .. } => 11,
            ChartFault::UnknownTarget { .. } => 12,
        }
    }

    /// The offset or the entry at fault; `None` where the number of offsets is.
    pub fn place(&self) -> Option<u32>
        ensures { result ≡ chart_place self.now }
    {
        match *self {
            ChartFault::OffsetCount => None,
            ChartFault::BadOffset { offset } => Some(offset),
            ChartFault::UnknownTarget { entry } => Some(entry),
        }
    }
}

impl fmt::Display for ChartFault {
    ghost output = { λ fault. Some (chart_text fault) };

    fn fmt<W: fmt::Write>(&self, f: &mut fmt::Formatter<W>) -> fmt::Result {
        write!(f, "chart {}", self.number())?;
        match self {
            ChartFault::OffsetCount => Ok(()),
            ChartFault::BadOffset { offset } => write!(f, " offset {offset}"),
            ChartFault::UnknownTarget { entry } => write!(f, " entry {entry}"),
        }
    }
}

impl Error for ChartFault {}

/// Why a lock is declined.
#[derive(Clone, Copy, Debug, PartialEq, Eq)]
pub enum LockFault {
    /// The chart has no such mode.
    UnknownMode = 20,
    /// The mode has no such exit.
    UnknownExit = 21,
    /// 32 other locks are held.
    LocksFull = 22,
}

impl LockFault {
    /// The fault's number, 20 to 22.
    pub fn number(&self) -> u32
        ensures { result ≡ lock_number self.now }
    {
        *self as u32
    }
}

impl fmt::Display for LockFault {
    ghost output = { λ fault. Some (lock_text fault) };

    fn fmt<W: fmt::Write>(&self, f: &mut fmt::Formatter<W>) -> fmt::Result {
        write!(f, "lock {}", self.number())
    }
}

impl Error for LockFault {}
