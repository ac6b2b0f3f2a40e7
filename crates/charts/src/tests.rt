//! The sizes that are taken and refused, and a few exits of the blade chart.
use crate::blade::BladeChart;
use crate::chart::Chart;
use crate::fault::LockFault;
use crate::lead::Lead;
use crate::lock::LockChart;
use crate::table::{RefusedTable, TableChart};
use measures::step::Step;
use std::alloc::{AllocError, Global};
use std::test::Fail;

/// A table of `modes` modes, each with `exits` exits to the mode `to`.
fn table(
    heap: Global,
    modes: u32,
    exits: u32,
    to: u32,
) -> Result<Result<TableChart, RefusedTable>, AllocError> {
    let offsets: Vec<u32> = (0..=modes)
        .map(|mode| mode.wrapping_mul(exits))
        .collect(heap)?;
    let entries = vec![in heap; lead(to, 1, 200); modes.wrapping_mul(exits) as usize]?;
    Ok(TableChart::new(offsets, entries))
}

/// The number and the place with which a table is refused.
// Numbers, and not cases, here and below: the numbers are the rules', and a test of cases would not see one go wrong.
fn refusal(made: Result<TableChart, RefusedTable>) -> Option<(u32, Option<u32>)> {
    made.err()
        .map(|refused| (refused.fault.number(), refused.fault.place()))
}

/// The number with which a lock is declined.
fn declined(answer: Result<(), LockFault>) -> Option<u32> {
    answer.err().map(|fault| fault.number())
}

/// An exit that leads to a mode, by a step of so many faults and milliseconds.
fn lead(to: u32, faults: u8, dwell: u32) -> Lead {
    let step = Step::new(faults, dwell);
    Lead { to, step }
}

#[test]
fn tables(rt: HostRuntime) -> Result<(), Fail> {
    let cases = [
        (4_096, 64, 4_095, None),
        (4_097, 0, 0, Some((10, None))),
        (0, 0, 0, Some((10, None))),
        (2, 65, 0, Some((11, Some(1)))),
        (2, 1, 2, Some((12, Some(0)))),
    ];
    for (modes, exits, to, want) in cases {
        assert_eq!(rt; refusal(table(rt.alloc(), modes, exits, to)?), want);
    }
    Ok(())
}

#[test]
fn locks(rt: HostRuntime) -> Result<(), Fail> {
    let Ok(full) = table(rt.alloc(), 4_096, 64, 4_095)? else {
        return Err(Fail::new("the largest table is refused"));
    };
    let mut chart = LockChart::new(full);
    for exit in 0..32 {
        assert_eq!(rt; declined(chart.lock(4_095, exit)), None);
    }
    for (mode, exit, want) in [
        (4_096, 64, Some(20)),
        (4_095, 64, Some(21)),
        (4_095, 32, Some(22)),
        (4_095, 31, None),
    ] {
        assert_eq!(rt; declined(chart.lock(mode, exit)), want);
    }
    let mut above = LockChart::new(chart);
    assert_eq!(rt; declined(above.lock(4_095, 32)), None);
    for (exit, want) in [(31, None), (32, None), (33, Some(lead(4_095, 1, 200)))] {
        assert_eq!(rt; above.exit(4_095, exit), want);
    }
    Ok(())
}

#[test]
fn blades(rt: HostRuntime) {
    let cases = [
        (0, 10, Some(lead(2, 1, 100))),
        (0, 0, Some(lead(16, 1, 200))),
        (63, 7, Some(lead(51, 0, 30_000))),
        (0, 1, None),
        (64, 0, None),
    ];
    for (mode, exit, want) in cases {
        assert_eq!(rt; BladeChart.exit(mode, exit), want);
    }
}
