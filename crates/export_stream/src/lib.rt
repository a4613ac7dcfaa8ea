// A JSON text judged as it arrives, for C and Rust to call. The header is export_stream.h.
#![tactic(auto)]

ghost use Rattle.std.specs.Prelude.{◌≡◌};
ghost use Rattle.json_automaton.specs.State.{fresh};
ghost use Rattle.json_stream.specs.Stream.{fed_answer, finished};

use json_automaton::State;
use json_stream::Fed;

// The state before the first chunk.
#[unsafe(no_mangle)]
pub extern "C" fn json_fresh() -> State
    ensures { result ≡ fresh }
{
    json_stream::fresh()
}

// The state after one chunk more, and whether the text is lost.
#[unsafe(no_mangle)]
pub extern "C" fn json_feed(st: State, chunk: &[u8]) -> Fed
    ensures { result ≡ fed_answer st chunk.now }
{
    json_stream::feed(st, chunk)
}

// The answer after the last chunk.
#[unsafe(no_mangle)]
pub extern "C" fn json_finish(st: State) -> u64
    ensures { result ≡ finished st }
{
    json_stream::finish(st)
}
