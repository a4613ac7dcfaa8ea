// Which states some chunks lead to: those whose parts go together, with a count that is not below the fewest bytes.
ghost use Rattle.std.specs.Prelude.{◌≡◌, ◌≤◌, ◌&&◌, ◌||◌, eqb, leb, ◌+◌};
ghost use Rattle.limits.specs.Limits.{metadata};
ghost use Rattle.json_automaton.specs.Reachable.{extra, opened, ready, cost, fewest, in_object, consistent, is_reachable};

use json_automaton::{Control, State};
use json_transitions::is_object_top;
use limits::Limits;

// The count of every text that is too long.
pub(crate) const TOO_LONG: usize = Limits::METADATA + 1;

// The fewest bytes of each token so far.
const COSTS: [u64; 38] = [
    2, 1, 2, 2, 2, 2, 2, 2, 2, 2, 6, 5, 4, 3, 4, 5, 6, 7, 8, 9, 10, 1, 1, 1, 2, 3, 2, 3, 3, 1, 2,
    3, 1, 2, 3, 1, 2, 3,
];

fn cost_of(t: u64) -> u64
    ensures { (result ≡ cost t) × (result ≤ 10) }
{
    if t < 38 { COSTS[t as usize] } else { 0 }
}

// The innermost open bracket is an object's.
#[tactic(auto, unfolding(json_automaton::specs::Reachable::in_object))]
fn in_object(stack: u64) -> bool
    ensures { result ≡ in_object stack }
{
    2 <= stack && is_object_top(stack)
}

// The bytes of `"":` after an object's brace.
#[tactic(auto, unfolding(json_automaton::specs::Reachable::extra))]
fn extra_of(stack: u64) -> u64
    ensures { (result ≡ extra stack) × (result ≤ 3) }
{
    if in_object(stack) { 3 } else { 0 }
}

// The fewest bytes up to and with the innermost open bracket.
fn opened_of(stack: u64) -> u64
    ensures { (result ≡ opened stack) × (result ≤ 128) }
{
    let mut o = stack;
    let mut sum = 0;
    for _ in 0..Limits::NESTING {
        if o < 2 {
            return sum;
        }
        o /= 2;
        sum += extra_of(o) + 1;
    }
    sum
}

// The fewest bytes up to where a value may stand.
fn ready_of(stack: u64) -> u64
    ensures { (result ≡ ready stack) × (result ≤ 200) }
{
    opened_of(stack) + extra_of(stack)
}

// The fewest bytes that lead to a place, a token and brackets.
#[tactic(auto, unfolding(json_automaton::specs::Reachable::fewest))]
fn fewest_of(place: u64, token: u64, stack: u64) -> u64
    ensures { result ≡ fewest place token stack }
{
    match place {
        1 => ready_of(stack),
        2 => opened_of(stack),
        3 => ready_of(stack) + 2,
        4 => opened_of(stack) + cost_of(token),
        5 => ready_of(stack) + cost_of(token),
        _ => 0,
    }
}

// Which tokens and brackets go with a place.
fn value_consistent(t: u64, stack: u64) -> bool
    ensures { result ≡ (eqb t 0 && (eqb stack 1 || in_object stack)) }
{
    t == 0 && (stack == 1 || in_object(stack))
}

fn group_consistent(t: u64, stack: u64) -> bool
    ensures { result ≡ (eqb t 0 && leb 2 stack) }
{
    t == 0 && 2 <= stack
}

fn colon_consistent(t: u64, stack: u64) -> bool
    ensures { result ≡ (leb t 20 && in_object stack) }
{
    t <= 20 && in_object(stack)
}

#[tactic(auto, unfolding(json_automaton::specs::Reachable::consistent))]
fn is_consistent(place: u64, token: u64, stack: u64) -> bool
    ensures { result ≡ consistent place token stack }
{
    if stack < 1 || Control::FULL + Control::FULL <= stack {
        return false;
    }
    match place {
        1 => value_consistent(token, stack),
        2 | 3 => group_consistent(token, stack),
        4 => colon_consistent(token, stack),
        5 => token <= 37,
        _ => false,
    }
}

// A lost text has one byte or more, and is told from a longer one up to the first byte too many.
fn is_lost_state(token: u64, stack: u64, count: usize) -> bool
    ensures { result ≡ (eqb token 0 && eqb stack 0 && leb 1 count && leb count (metadata + 1)) }
{
    token == 0 && stack == 0 && 1 <= count && count <= TOO_LONG
}

// Some chunks lead to the state.
#[tactic(auto, unfolding(json_automaton::specs::Reachable::is_reachable))]
pub(crate) fn is_reachable(st: State) -> bool
    ensures { result ≡ is_reachable st }
{
    if st.place == Control::LOST {
        return is_lost_state(st.token, st.stack, st.count);
    }
    is_consistent(st.place, st.token, st.stack)
        && fewest_of(st.place, st.token, st.stack) <= st.count as u64
        && st.count <= Limits::METADATA
}
