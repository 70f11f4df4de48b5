// Blocks and keys as they are read from bytes and written to bytes.
#![tactic(auto)]

ghost use Rattle.std.specs.Prelude.{◌≡◌};
ghost use Rattle.ghash_block.specs.Block.{value_of, key_of};
ghost use Rattle.gf128.specs.Bytes.{block_at, put_block};

use ghash_block::block::{Block, Key};
use octets::{read_be8, write_be8};

// The block in the 16 bytes from `at` on. Bytes past the end count as zeros, which is how A and C are padded.
pub fn block_at(s: &[u8], at: usize) -> Block
    ensures { value_of result ≡ block_at s.now at }
{
    if s.len() <= at {
        return Block::ZERO;
    }
    Block(read_be8(s, at), read_be8(s, at + 8))
}

// The key in the 16 bytes from place 0 on, read as a block is. No `TryFrom<&[u8]>` that tests the length: its impl would stand with the
// type, in the crate below this one.
pub fn key_at_start(s: &[u8]) -> Key
    ensures { key_of result ≡ block_at s.now 0 }
{
    Key::from(block_at(s, 0))
}

// Writes the 16 bytes of a block from `at` on. Where they do not fit, nothing is written.
pub fn put_block(s: &mut [u8], at: usize, b: Block)
    ensures { s.new ≡ put_block s.old at (value_of b) }
{
    if s.len() < 16 || s.len() - 16 < at {
        return;
    }
    write_be8(s, at, b.0);
    write_be8(s, at + 8, b.1);
}
