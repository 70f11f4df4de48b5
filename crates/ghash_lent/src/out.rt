// Writing a block to a lent `out`.
ghost use Rattle.std.specs.Prelude.{◌≡◌};
ghost use Rattle.ghash_block.specs.Answer.{block_of};
ghost use Rattle.ghash_block.specs.Block.{value_of};
ghost use Rattle.gf128.specs.Entries.{out_number, out_bytes};
ghost use Rattle.refusal.specs.Refusal.{number_of};

use ghash_block::answer::block_of;
use ghash_block::block::Block;
use ghash_bytes::put_block;
use refusal::{Refusal, number_of};

// Writes a block to `out`, and gives the number that stands beside it, any number and any block; an `out` not 16 bytes long is 9, and
// nothing is written.
pub fn put_numbered(number: u32, block: Block, out: &mut [u8]) -> u32
    ensures { (result ≡ out_number out.old number)
        × (out.new ≡ out_bytes out.old (value_of block)) }
{
    if out.len() != 16 {
        return Refusal::Not16Bytes.number();
    }
    put_block(out, 0, block);
    number
}

// The same of an answer: its number for C, and its block.
pub fn put_answer(answer: Result<Block, Refusal>, out: &mut [u8]) -> u32
    ensures { (result ≡ out_number out.old (number_of answer))
        × (out.new ≡ out_bytes out.old (block_of answer)) }
{
    put_numbered(number_of(answer), block_of(answer), out)
}
