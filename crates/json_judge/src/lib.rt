// A JSON text judged as a whole, in one pass: its grammar, and the names in its objects.
#![tactic(auto)]

mod seen;
mod values;

ghost use Rattle.std.specs.Prelude.{◌≡◌, ◌≤◌, ◌*◌, Err};
ghost use Rattle.refusals.specs.Refusals.{lowest};
ghost use Rattle.limits.specs.Limits.{nesting, members};
ghost use Rattle.json_judge.specs.Judged.{refusal_of, judge_rules};
ghost use Rattle.json_judge.specs.Stack.{NamesRoom};

use crate::values::judge_with;
use limits::Limits;

// What is wrong with a text: it is no JSON nested to the limit, or has an object with a name twice or too many members.
#[derive(Clone, Copy)]
pub enum TextError {
    NotJson,
    BadMembers,
}

impl TextError {
    // Document 01's number of the refusal.
    pub fn refusal(self) -> u64
        ensures { result ≡ refusal_of (Err self) }
    {
        match self {
            TextError::NotJson => 2,
            TextError::BadMembers => 3,
        }
    }
}

// How many names of an object are kept, and whether the object, or one in it, has a name twice or too many members.
#[derive(Clone, Copy)]
pub struct Names {
    pub count: usize,
    pub bad: bool,
}

// Names of all open objects, at the limits of nesting and of members.
const NAMES: usize = Limits::NESTING * Limits::MEMBERS;

// A member takes at least four bytes, so that a short text needs room for fewer names.
const FEW: usize = 1024;

const SHORT: usize = 4096;

pub fn judge(s: &[u8]) -> Result<(), TextError>
    ensures { refusal_of result ≡ lowest (judge_rules s.now) }
{
    if s.len() <= SHORT {
        return judge_in::<FEW>(s);
    }
    judge_in::<NAMES>(s)
}

// The same, with room for so many names. Their keys stand apart from their places, so that a look for a key compares many at once.
fn judge_in<const ROOM: usize>(s: &[u8]) -> Result<(), TextError>
    requires names_room { NamesRoom nesting s.now 1 0 ROOM }
    requires most { ROOM ≤ nesting * members }
    ensures { refusal_of result ≡ lowest (judge_rules s.now) }
{
    let mut places = [0usize; ROOM];
    let mut keys = [0u32; ROOM];
    judge_with(s, &mut places, &mut keys)
}
