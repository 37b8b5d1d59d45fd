// Where a recording stands between blocks.
#![tactic(auto)]

ghost use Rattle.std.specs.Prelude.{◌≡◌};
ghost use Rattle.recording_state.specs.States.{fresh_state};

use join_places::Record;

// Where a recording stands: the record of its open messages, the lines answered, and the characters kept of the line begun.
#[derive(Clone, Copy)]
pub struct State {
    pub messages: Record,
    pub lines: u64,
    pub kept: usize,
}

impl State {
    // The start of a recording: nothing is open, and nothing was read.
    pub fn fresh() -> State
        ensures { result ≡ fresh_state }
    {
        State {
            messages: Record::fresh(),
            lines: 0,
            kept: 0,
        }
    }
}
