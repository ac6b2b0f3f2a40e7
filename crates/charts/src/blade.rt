//! The blade chart: what the events of each blade do in the modes of three blades.
ghost use Rattle.std.specs.Prelude.{◌≡◌, ◌%◌};
ghost use Rattle.charts.specs.BladeMeaning.{event_numbered, turned, turn, blade_meaning};
ghost use Rattle.charts.specs.BladeLaws.{blade_lawful};

use crate::blades::{State, mode_of, states_of};
use crate::chart::Chart;
use crate::lead::Lead;
use measures::step::Step;

const MODES: u32 = 64;

const EXITS: u32 = 12;

/// What can happen to a blade.
#[derive(Clone, Copy)]
enum Event {
    Hold,
    Resume,
    Feather,
    Finish,
}

/// The events of a blade, in the order of its exits.
const EVENTS: [Event; 4] = [Event::Hold, Event::Resume, Event::Feather, Event::Finish];

impl Event {
    /// The event of an exit.
    // As `State::numbered`, and no `From` for the same reason; one function over any array of four would be as long as both.
    fn of(exit: u32) -> Self
        ensures { result ≡ event_numbered (exit % 4) }
    {
        EVENTS[(exit % 4) as usize]
    }
}

/// The state that an event leads a blade to, and the step that this takes.
#[derive(Clone, Copy)]
struct Turn {
    to: State,
    step: Step,
}

impl Turn {
    /// A turn to a state, with its faults and its dwell in milliseconds.
    fn to(to: State, faults: u8, dwell: u32) -> Self
        ensures { result ≡ turned to faults dwell }
    {
        Turn {
            to,
            step: Step::new(faults, dwell),
        }
    }

    /// What an event does to a blade; None where it cannot happen.
    fn of(state: State, event: Event) -> Option<Self>
        ensures { result ≡ turn state event }
    {
        match (event, state) {
            (Event::Hold, State::Working) => Some(Self::to(State::Holding, 1, 200)),
            (Event::Resume, State::Holding) => Some(Self::to(State::Working, 0, 500)),
            (Event::Feather, State::Working) => Some(Self::to(State::Feathering, 1, 100)),
            (Event::Feather, State::Holding) => Some(Self::to(State::Feathering, 0, 300)),
            (Event::Finish, State::Feathering) => Some(Self::to(State::Feathered, 0, 6_000)),
            (Event::Finish, State::Feathered) => Some(Self::to(State::Working, 0, 30_000)),
            _ => None,
        }
    }
}

/// The chart of three blades, which has nothing to keep.
#[derive(Clone, Copy)]
pub struct BladeChart;

impl Chart for BladeChart {
    ghost means = { λ _. blade_meaning };

    ghost lawful = { λ c. blade_lawful };

    fn modes(&self) -> u32 {
        MODES
    }

    fn exits(&self, mode: u32) -> u32 {
        if mode < MODES { EXITS } else { 0 }
    }

    fn exit(&self, mode: u32, exit: u32) -> Option<Lead> {
        if mode >= MODES || exit >= EXITS {
            return None;
        }
        let mut states = states_of(mode);
        let blade = (exit / 4) as usize;
        Turn::of(states[blade], Event::of(exit)).map(|turn| {
            states[blade] = turn.to;
            Lead {
                to: mode_of(states),
                step: turn.step,
            }
        })
    }
}
