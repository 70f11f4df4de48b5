// The step back (document 01's term): the earlier partial hash Y from the key H, the block X and the later one Y1.
ghost use Rattle.std.specs.Prelude.{◌≡◌};
ghost use Rattle.refusal.specs.Refusal.{number_of};
ghost use Rattle.ghash_block.specs.Answer.{block_of};
ghost use Rattle.ghash_block.specs.Block.{value_of, key_of};
ghost use Rattle.gf128.specs.StepBack.{StepsBack};
ghost use Rattle.ghash_inverse.specs.StepBack.{StepsBackBytes};

use crate::inverse::inverse_of;
use ghash_block::block::{Block, Key};
use ghash_bytes::{block_at, key_at_start};
use ghash_plain::product_plain;
use refusal::Refusal;

// The Y with (Y xor X)·H = Y1: Y1 times the inverse of H, xor X. For the zero key every Y leads to zero, and to nothing else.
pub fn step_back(h: Key, x: Block, later: Block) -> Result<Block, Refusal>
    ensures { StepsBack (key_of h) (value_of x) (value_of later) (number_of result) (block_of result) }
{
    match inverse_of(h) {
        Some(i) => {
            let y = product_plain(later, Key::from(i)).xor(x);
            Ok(y)
        }
        None if later == Block::ZERO => Err(Refusal::ManyExist),
        None => Err(Refusal::NoneExists),
    }
}

// The step back of a key, a block and a later hash given as bytes.
pub fn step_back_bytes(key: &[u8], block: &[u8], later: &[u8]) -> Result<Block, Refusal>
    ensures { StepsBackBytes key.now block.now later.now (number_of result) (block_of result) }
{
    if key.len() != 16 || block.len() != 16 || later.len() != 16 {
        return Err(Refusal::Not16Bytes);
    }
    step_back(key_at_start(key), block_at(block, 0), block_at(later, 0))
}
