// Answers about JSON text judged as it arrives.
use crate::memory::store_again;
use crate::numbers::{at, past_numbers, read_numbers};
use crate::parts::{first, front, past};
use crate::print::line;
use crate::sum::{EMPTY, Sum, mix, print_sum};
use json_automaton::State;
use json_stream::{Fed, feed, finish, fresh};
use std::io::Stdout;

// The most bytes of a chunk.
const BYTES: usize = 65536;

// The last answer, and the checksum of all.
#[derive(Clone, Copy)]
pub struct Run {
    pub last: Fed,
    pub hash: u64,
}

// The numbers are those of the starting state after how many they are, 0 for the fresh state or 4, and how many chunks there
// are; these follow.
pub(crate) fn run_chunks(to: Stdout, payload: &[u8]) -> bool {
    let mut head = [0u64; 6];
    read_numbers(payload, &mut head);
    if head[0] == 0 {
        return print_run(to, feed_chunks(fresh(), past_numbers(payload, 2), head[1]));
    }
    let st = state(&head[1..]);
    print_run(to, feed_chunks(st, past_numbers(payload, 6), head[5]))
}

// The state of four numbers.
fn state(v: &[u64]) -> State {
    State {
        place: at(v, 0),
        token: at(v, 1),
        stack: at(v, 2),
        count: at(v, 3) as usize,
    }
}

// The starting state counts as an answer with 0 and 0 before it.
fn feed_chunks(st: State, s: &[u8], n: u64) -> Run {
    let mut e = Fed {
        refusal: 0,
        lost: 0,
        state: st,
    };
    let mut h = add_answer(EMPTY, e, finish(st));
    let mut p = 0u64;
    for _ in 0..n {
        let rest = past(s, p);
        e = feed_chunk(e.state, rest);
        h = add_answer(h, e, finish(e.state));
        p = p.wrapping_add(chunk_size(rest));
    }
    Run { last: e, hash: h }
}

// A chunk is how many bytes it has, how many of them stand there, and these, which are repeated.
fn feed_chunk(st: State, s: &[u8]) -> Fed {
    let mut head = [0u64; 2];
    read_numbers(s, &mut head);
    let part = first(past_numbers(s, 2), head[1]);
    if head[0] == head[1] {
        return feed(st, part);
    }
    let mut room = [0u8; BYTES];
    feed_again(st, part, front(&mut room, head[0]))
}

fn feed_again(st: State, part: &[u8], chunk: &mut [u8]) -> Fed {
    store_again(part, chunk);
    feed(st, chunk)
}

// How many bytes of a payload a chunk takes.
fn chunk_size(s: &[u8]) -> u64 {
    let mut head = [0u64; 2];
    read_numbers(s, &mut head);
    head[1].wrapping_add(16)
}

// The checksum h with an answer's numbers more, and what finishing gives.
fn add_answer(h: u64, e: Fed, end: u64) -> u64 {
    let st = e.state;
    let v = [
        e.refusal,
        e.lost,
        st.place,
        st.token,
        st.stack,
        st.count as u64,
        end,
    ];
    v.iter().fold(h, |g, x| mix_halves(g, *x))
}

// The checksum h with the lower and the upper half of a number.
fn mix_halves(h: u64, x: u64) -> u64 {
    mix(mix(h, x), x >> 32)
}

// `h`: the checksum, the last answer's numbers, and what finishing gives.
fn print_run(to: Stdout, r: Run) -> bool {
    let e = r.last;
    let st = e.state;
    let v = [
        r.hash,
        e.refusal,
        e.lost,
        st.place,
        st.token,
        st.stack,
        st.count as u64,
        finish(st),
    ];
    line(to, b"h", &v)
}

// The numbers are those of the first state, what each state has more than the one before, and how many there are.
// `i`: how many were not refused, and the checksum of all answers.
pub(crate) fn run_states(to: Stdout, payload: &[u8]) -> bool {
    let mut v = [0u64; 9];
    read_numbers(payload, &mut v);
    print_sum(to, b"i", feed_states(state(&v), state(&v[4..]), v[8]))
}

// State k is fed the byte k modulo 256.
fn feed_states(first: State, step: State, n: u64) -> Sum {
    let mut st = first;
    let mut b = 0u8;
    let mut m = Sum {
        count: 0,
        hash: EMPTY,
    };
    for _ in 0..n {
        let e = feed(st, &[b]);
        m.hash = add_answer(m.hash, e, finish(st));
        m.count = m.count.wrapping_add(u64::from(e.refusal == 0));
        st = next_state(st, step);
        b = b.wrapping_add(1);
    }
    m
}

fn next_state(st: State, step: State) -> State {
    State {
        place: st.place.wrapping_add(step.place),
        token: st.token.wrapping_add(step.token),
        stack: st.stack.wrapping_add(step.stack),
        count: st.count.wrapping_add(step.count),
    }
}
