//! Whether a table of offsets and entries is a chart.
ghost use Rattle.std.specs.Prelude.{◌+◌, ◌<◌, ◌≤◌, ◌↔◌, length, IsTrue, MatchOption};
ghost use Rattle.std.specs.Result.{result_err};
ghost use Rattle.charts.specs.Tables.{GoodOffset, GoodOffsets, FirstBadOffset, KnownTargets, FirstUnknownTarget, CheckedTable};

use crate::fault::ChartFault;
use crate::lead::Lead;

/// A table has 1 to 4,096 modes, and an offset behind the last.
const LEAST_OFFSETS: usize = 2;

const MOST_OFFSETS: usize = 4_097;

/// The most exits that a mode may have.
const MOST_EXITS: u32 = 64;

/// Refuses a table that is no chart.
// Two parameters, not one struct: that a number fits its type is known of a slice that is a parameter, and not of one in a struct,
// and the cast of the entry's number did not prove.
pub(crate) fn check_table(offsets: &[u32], entries: &[Lead]) -> Result<(), ChartFault>
    ensures { CheckedTable offsets.now entries.now (result_err result) }
{
    if !(LEAST_OFFSETS..=MOST_OFFSETS).contains(&offsets.len()) {
        return Err(ChartFault::OffsetCount);
    }
    if let Some(offset) = first_bad_offset(offsets, entries.len()) {
        return Err(ChartFault::BadOffset {
            offset: offset as u32,
        });
    }
    if let Some(entry) = first_unknown_target(offsets.len() - 1, entries) {
        // The last offset counts the entries, so that their numbers fit 32 bits.
        return Err(ChartFault::UnknownTarget {
            entry: entry as u32,
        });
    }
    Ok(())
}

/// The least offset that is not good.
fn first_bad_offset(offsets: &[u32], entries: usize) -> Option<usize>
    ensures { MatchOption result (GoodOffsets offsets.now entries) (FirstBadOffset offsets.now entries) }
{
    (0..offsets.len()).find(|i| !is_good_offset(offsets, entries, *i))
}

fn is_good_offset(offsets: &[u32], entries: usize, i: usize) -> bool
    requires { i < length offsets.now }
    ensures { IsTrue result ↔ GoodOffset offsets.now entries i }
{
    let here = offsets[i];
    let rises = if i == 0 {
        here == 0
    } else {
        rises_well(offsets[i - 1], here)
    };
    rises && (i + 1 < offsets.len() || here as usize == entries)
}

/// Whether an offset may follow another.
fn rises_well(before: u32, here: u32) -> bool
    ensures { IsTrue result ↔ ((before ≤ here) × (here ≤ before + 64)) }
{
    before <= here && here - before <= MOST_EXITS
}

/// The least entry that leads to no mode.
fn first_unknown_target(modes: usize, entries: &[Lead]) -> Option<usize>
    ensures { MatchOption result (KnownTargets modes entries.now) (FirstUnknownTarget modes entries.now) }
{
    entries.iter().position(|entry| entry.to as usize >= modes)
}
