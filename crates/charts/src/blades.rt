//! Three blades, what each is doing, and the mode number that says so.
ghost use Rattle.std.specs.Prelude.{◌≡◌, ◌<◌};
ghost use Rattle.charts.specs.Blades.{state_number, state_numbered, blades_of, mode_of};

/// What one blade is doing.
#[derive(Clone, Copy)]
pub enum State {
    Working,
    Holding,
    Feathering,
    Feathered,
}

/// The states, each at its number.
const STATES: [State; 4] = [
    State::Working,
    State::Holding,
    State::Feathering,
    State::Feathered,
];

impl State {
    /// The state of a number, of which the remainder by 4 counts. (A `From` would hide that, and no number is refused.)
    fn numbered(number: u32) -> Self
        ensures { result ≡ state_numbered number }
    {
        STATES[(number % 4) as usize]
    }
}

impl From<State> for u32 {
    ghost from_gives = { λ state number. number ≡ state_number state };

    fn from(state: State) -> u32 {
        state as u32
    }
}

/// The mode number of the states of the three blades, 0 to 63.
// Functions, and no `From`: an array is no type of this crate.
pub(crate) fn mode_of(states: [State; 3]) -> u32
    ensures { result ≡ mode_of states }
{
    let [first, second, third] = states.map(u32::from);
    16 * first + 4 * second + third
}

/// The states of the three blades in a mode.
pub(crate) fn states_of(mode: u32) -> [State; 3]
    ensures states { result ≡ blades_of mode }
    ensures same_mode { mode < 64 → mode_of (blades_of mode) ≡ mode }
{
    [mode / 16, mode / 4, mode].map(State::numbered)
}
