// Plain bytes of a string, passed eight at a time and then one by one.
ghost use Rattle.std.specs.Prelude.{◌≡◌};
ghost use Rattle.json_blocks.specs.TextBytes.{skip_while};
ghost use Rattle.json_blocks.specs.Blocks.{plain_byte};

use json_blocks::blocks::{Plain, skip_blocks, skip_while};

// Past the plain bytes from a place on.
#[tactic(auto, using(json_blocks::proofs::BlockLaws::no_plain, crate::proofs::StringLaws::plain_skips))]
pub fn skip_plain_bytes(s: &[u8], at: usize) -> usize
    ensures { result ≡ skip_while plain_byte s.now at }
{
    let i = skip_blocks::<Plain>(s, at);
    skip_while::<Plain>(s, i)
}
