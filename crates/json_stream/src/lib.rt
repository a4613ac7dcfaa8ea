// A JSON text judged as it arrives, chunk by chunk (request P6, whose blocks are our chunks). A state by value goes from chunk to chunk; it
// may come back from anywhere, and each function judges it first.
#![tactic(auto)]

mod reach;

ghost use Rattle.std.specs.Prelude.{◌≡◌, length};
ghost use Rattle.json_automaton.specs.Control.{accepting};
ghost use Rattle.json_automaton.specs.State.{fresh, too_long, fed};
ghost use Rattle.json_stream.specs.Stream.{fed_answer, finished};

use crate::reach::{TOO_LONG, is_reachable};
use json_automaton::{Control, State};
use json_transitions::{is_whole, run};
use limits::Limits;

// A refusal, or 0 with the state after a chunk and whether the text is lost: 1, or 0 for open. C gets them, so they are numbers.
#[repr(C)]
#[derive(Clone, Copy)]
pub struct Fed {
    pub refusal: u64,
    pub lost: u64,
    pub state: State,
}

// The state before the first chunk.
pub fn fresh() -> State
    ensures { result ≡ fresh }
{
    State {
        place: Control::VALUE,
        token: 0,
        stack: 1,
        count: 0,
    }
}

fn too_long() -> State
    ensures { result ≡ too_long }
{
    State {
        place: Control::LOST,
        token: 0,
        stack: 0,
        count: TOO_LONG,
    }
}

#[tactic(auto, unfolding(json_automaton::specs::State::fed))]
fn state_after(st: State, chunk: &[u8]) -> State
    ensures { result ≡ fed st chunk.now }
{
    let n = chunk.len();
    if Limits::METADATA < n || Limits::METADATA - n < st.count {
        return too_long();
    }
    let c = run(
        Control {
            place: st.place,
            token: st.token,
            stack: st.stack,
        },
        chunk,
    );
    State {
        place: c.place,
        token: c.token,
        stack: c.stack,
        count: st.count + n,
    }
}

// One chunk more: 18 if no chunks lead to the state, or the state after it.
#[tactic(auto, unfolding(crate::specs::Stream::fed_answer))]
pub fn feed(st: State, chunk: &[u8]) -> Fed
    ensures { result ≡ fed_answer st chunk.now }
{
    if !is_reachable(st) {
        return Fed {
            refusal: 18,
            lost: 0,
            state: State {
                place: 0,
                token: 0,
                stack: 0,
                count: 0,
            },
        };
    }
    let next = state_after(st, chunk);
    Fed {
        refusal: 0,
        lost: u64::from(next.place == Control::LOST),
        state: next,
    }
}

// The bytes so far are a text.
#[tactic(auto, unfolding(json_automaton::specs::Control::accepting))]
fn is_text(place: u64, token: u64, stack: u64) -> bool
    ensures { result ≡ accepting (record { place = place; token = token; stack = stack }) }
{
    is_whole(token) && place == Control::AFTER && stack < 2
}

// After the last chunk: 18 if no chunks lead to the state; 1, 2 or 0 for the text of all chunks. C gets the number.
#[tactic(auto, unfolding(refusals::specs::Refusals::lowest))]
pub fn finish(st: State) -> u64
    ensures { result ≡ finished st }
{
    if !is_reachable(st) {
        return 18;
    }
    if st.count == 0 || Limits::METADATA < st.count {
        return 1;
    }
    if is_text(st.place, st.token, st.stack) {
        0
    } else {
        2
    }
}
