//! The chart that a file's lines lay out, with its locks.
ghost use Rattle.std.specs.Prelude.{◌≡◌, ◌+◌, ◌^◌, ◌<◌, ◌≤◌, map, length, IfOk, MatchResult};
ghost use Rattle.std.specs.List.Sorted.{IsNonDecreasingBy};
ghost use Rattle.charts.specs.LockMeaning.{locks_of};
ghost use Rattle.reader.specs.Layout.{begins, offsets_of, lead_of, chart_line, set_all, AllSet, Declined};
ghost use Rattle.reader.specs.Loading.{TableLaid};

use crate::content::{ExitLine, LockLine};
use crate::fault::{At, DeclinedLock, LoadFault};
use charts::chart::Chart;
use charts::fault::ChartFault;
use charts::lead::Lead;
use charts::lock::LockChart;
use charts::table::TableChart;
use std::alloc::{AllocError, Global};

impl From<&ExitLine> for Lead {
    ghost from_gives = { λ line lead. lead ≡ lead_of line.now };

    fn from(line: &ExitLine) -> Lead {
        Lead {
            to: line.to,
            step: line.step,
        }
    }
}

/// The exit lines of a file of so many modes. None of them leaves a mode below that of the line before.
#[derive(Clone, Copy)]
pub(crate) struct Exits<'a> {
    pub lines: &'a [ExitLine],
    pub modes: u32,
    ghost few: { length lines.now ≤ 512 },
    ghost small: { modes ≤ 64 },
    ghost rising: { IsNonDecreasingBy (λ x. x.from) lines.now },
}

impl<'a> Exits<'a> {
    /// Where the exits of a mode begin: behind the lines that leave a mode below it.
    fn begins(&self, mode: u32) -> u32
        ensures { result ≡ begins self.now.lines.now mode }
    {
        self.lines.partition_point(|x| x.from < mode) as u32
    }

    /// Where the exits of each mode begin, and behind them where those of the last mode end.
    fn offsets(&self, heap: Global) -> Result<Vec<u32>, AllocError>
        ensures { IfOk result (λ v. v.items ≡ offsets_of self.now.modes self.now.lines.now) }
    {
        (0..self.modes + 1)
            .map(|mode| self.begins(mode))
            .collect(heap)
    }

    /// Where each line leads.
    fn leads(&self, heap: Global) -> Result<Vec<Lead>, AllocError>
        ensures { IfOk result (λ v. v.items ≡ map lead_of self.now.lines.now) }
    {
        self.lines.iter().map(Lead::from).collect(heap)
    }

    /// The line on which a fault of their table shows.
    fn line_of(&self, fault: ChartFault) -> u32
        requires { chart_line self.now.modes fault < 2 ^ 32 }
        ensures { result ≡ chart_line self.now.modes fault }
    {
        match fault {
            ChartFault::OffsetCount | ChartFault::BadOffset { .. } => self.modes + 2,
            ChartFault::UnknownTarget { entry } => self.modes + 3 + entry,
        }
    }

    /// The chart that the lines lay out.
    pub(crate) fn table(&self, heap: Global) -> Result<TableChart, LoadFault>
        ensures { TableLaid self.now.modes self.now.lines.now result }
    {
        let offsets = self.offsets(heap)?;
        let entries = self.leads(heap)?;
        // Through `map_err` this is no plainer: no clauses are inferred for its closure, so it would need its own.
        match TableChart::new(offsets, entries) {
            Ok(table) => Ok(table),
            Err(refused) => Err(LoadFault::Chart(At {
                fault: refused.fault,
                line: self.line_of(refused.fault),
            })),
        }
    }
}

/// The locks of the lines in turn, the first of which stands on the line `first`.
pub(crate) fn set_locks<C: Chart>(
    chart: &mut LockChart<C>,
    locks: &[LockLine],
    first: u32,
) -> Result<(), At<DeclinedLock>>
    requires { first + length locks.now < 2 ^ 32 }
    ensures same_below { chart.new.below ≡ chart.old.below }
    ensures locks { MatchResult result (λ _. AllSet (C.Chart.means chart.old.below) (locks_of chart.old) locks.now × (locks_of chart.new ≡ set_all (locks_of chart.old) locks.now)) (λ e. Declined (C.Chart.means chart.old.below) (locks_of chart.old) locks.now e.fault.lock e.fault.fault × (e.line ≡ first + e.fault.lock)) }
{
    for (number, line) in locks.iter().enumerate() {
        // Not `map_err`, as above: its closure, which adds to a line, would need clauses of its own.
        if let Err(fault) = chart.lock(line.mode, line.exit) {
            let lock = number as u32;
            let fault = DeclinedLock { fault, lock };
            return Err(At {
                fault,
                line: first + lock,
            });
        }
    }
    Ok(())
}
