//! One step of a course, as every measure sees it.
ghost use Rattle.std.specs.Prelude.{◌≡◌, ◌≤◌};

/// A step raises some faults and dwells some milliseconds. The bounds are part of the type, so that whoever holds a
/// step knows them.
#[derive(Clone, Copy, Debug, PartialEq, Eq)]
pub struct Step {
    /// How many faults the step raises, 0 to 255.
    pub faults: u8,
    /// How long it dwells, in milliseconds.
    pub dwell: u32,
    ghost few: { faults ≤ 255 },
    ghost short: { dwell ≤ 4294967295 },
}

impl Step {
    /// A step of so many faults and milliseconds.
    pub fn new(faults: u8, dwell: u32) -> Self
        ensures faults { result.faults ≡ faults }
        ensures dwell { result.dwell ≡ dwell }
    {
        Step { faults, dwell }
    }
}
