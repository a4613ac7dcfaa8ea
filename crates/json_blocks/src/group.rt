ghost use Rattle.std.specs.Prelude.{◌≡◌, ℕ, ◌<◌};
ghost use Rattle.json_blocks.specs.Group.{after_item, colon_at};

use crate::{After, Cursor, peek};

impl Cursor {
    // What stands after an item of a group that ends with close.
    #[tactic(auto, unfolding(crate::specs::Group::after_item))]
    pub(crate) fn after_item(self, s: &[u8], close: u8) -> Option<After>
        requires { 0 < close }
        ensures { result ≡ after_item s.now close self.at }
    {
        let at = self.skip_blanks(s).at;
        let b = peek(s, at);
        if b == b',' {
            return Some(After::Item(Cursor { at: at + 1 }.skip_indent(s)));
        }
        if b == close {
            return Some(After::Close(Cursor { at: at + 1 }));
        }
        None
    }

    pub fn after_element(self, s: &[u8]) -> Option<After>
        ensures { result ≡ after_item s.now 0x5D self.at }
    {
        self.after_item(s, b']')
    }

    pub fn after_member(self, s: &[u8]) -> Option<After>
        ensures { result ≡ after_item s.now 0x7D self.at }
    {
        self.after_item(s, b'}')
    }

    // A colon between blanks, up to the value.
    #[tactic(auto, unfolding(crate::specs::Group::colon_at))]
    pub fn colon(self, s: &[u8]) -> Option<Cursor>
        ensures { result ≡ colon_at s.now self.at }
    {
        let at = self.skip_blanks(s).at;
        if peek(s, at) == b':' {
            return Some(Cursor { at: at + 1 }.skip_blanks(s));
        }
        None
    }
}
