// Blocks and answers compared with what they should be.
ghost use Rattle.std.specs.Prelude.{◌≡◌};
ghost use Rattle.ghash_block.specs.Block.{value_of};
ghost use Rattle.gf128.specs.Bytes.{block_bytes};
ghost use Rattle.known_compare.specs.Counted.{IsSeen, counted, answer_is};

use crate::tally::count;
use ghash_block::answer::block_of;
use ghash_block::block::Block;
use ghash_bytes::put_block;
use refusal::{Refusal, number_of};

// What a case answered: the number, and the block beside it. A refusal's block counts too: a message in pieces whose last piece
// is refused has the hash of the pieces before it.
#[derive(Clone, Copy)]
pub struct Seen {
    pub number: u32,
    pub block: Block,
}

// A call's answer as it is seen: 0 with the block, or the number with the zero block.
impl From<Result<Block, Refusal>> for Seen {
    ghost from_gives = { IsSeen };

    fn from(answer: Result<Block, Refusal>) -> Seen {
        Seen {
            number: number_of(answer),
            block: block_of(answer),
        }
    }
}

// The 16 bytes of a block.
pub fn block_bytes(b: Block) -> [u8; 16]
    ensures { result ≡ block_bytes (value_of b) }
{
    let mut s = [0u8; 16];
    put_block(&mut s, 0, b);
    s
}

// Counts the answer if it is this number with this block.
pub fn answer(agreed: u64, a: Seen, number: u32, block: Block) -> u64
    ensures { result ≡ counted agreed (answer_is a number block) }
{
    count(agreed, (a.number == number) & (a.block == block))
}
