// The block of an answer.
ghost use Rattle.std.specs.Prelude.{◌≡◌};
ghost use Rattle.ghash_block.specs.Answer.{block_of};
ghost use Rattle.ghash_block.specs.Block.{value_of};

use crate::block::Block;
use refusal::Refusal;

// The block that an answer gives: the zero block on a refusal.
pub fn block_of(answer: Result<Block, Refusal>) -> Block
    ensures { value_of result ≡ block_of answer }
{
    answer.unwrap_or(Block::ZERO)
}
