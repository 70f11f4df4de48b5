// The ways to hash a message, and their answers counted.
ghost use Rattle.gf128.specs.Bytes.{block_bytes};
ghost use Rattle.ghash_block.specs.Block.{value_of};
ghost use Rattle.known_hashes.specs.Counted.{HashedBy, Counted};

use crate::pieces::{Mix, in_pieces};
use ghash_block::block::Block;
use ghash_step::Path;
use ghash_whole::ghash;
use known_compare::compare::{Seen, answer, block_bytes};

// Whole on a path, or in pieces of some bytes.
#[derive(Clone, Copy)]
pub enum Way {
    Whole(Path),
    Pieces(Mix, usize),
}

fn hash(way: Way, key: &[u8], a: &[u8], c: &[u8]) -> Seen
    ensures { HashedBy way key.now a.now c.now result }
{
    match way {
        Way::Whole(path) => Seen::from(ghash(path, key, a, c)),
        Way::Pieces(mix, size) => in_pieces(mix, size, key, a, c),
    }
}

// Counts the answer for a message under the key H if it is this number with this block.
pub fn hash_answer(
    agreed: u64,
    way: Way,
    h: Block,
    a: &[u8],
    c: &[u8],
    number: u32,
    block: Block,
) -> u64
    ensures { Counted way (block_bytes (value_of h)) a.now c.now agreed number block result }
{
    let key = block_bytes(h);
    answer(agreed, hash(way, &key, a, c), number, block)
}
