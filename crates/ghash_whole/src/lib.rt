// The hash of a whole message, A and C, on the path that is given.
#![tactic(auto)]

ghost use Rattle.std.specs.Prelude.{◌≡◌, ◌≤◌, length};
ghost use Rattle.ghash_block.specs.Block.{value_of, key_of};
ghost use Rattle.ghash_whole.specs.Answer.{HashAnswer};
ghost use Rattle.gf128.specs.Hash.{limit, ghash};

use ghash_block::block::{Block, Key};
use ghash_bytes::key_at_start;
use ghash_state::LIMIT;
use ghash_step::{Path, PreparedKey, length_block};
use ghash_tables::TABLES;
use refusal::Refusal;

// The hash of an A and a C within the limit.
fn hash_of(path: Path, key: Key, a: &[u8], c: &[u8]) -> Block
    requires { (length a.now ≤ limit) × (length c.now ≤ limit) }
    ensures { value_of result ≡ ghash (key_of key) a.now c.now }
{
    let mut numbers = [0; TABLES];
    let prepared = PreparedKey::new(path, key, &mut numbers);
    let after_a = prepared.over_blocks(Block::ZERO, a);
    let after_c = prepared.over_blocks(after_a, c);
    prepared.next(after_c, length_block(a.len(), c.len()))
}

// The hash of a whole A and C.
pub fn ghash(path: Path, key: &[u8], a: &[u8], c: &[u8]) -> Result<Block, Refusal>
    ensures { HashAnswer key.now a.now c.now result }
{
    if key.len() != 16 {
        return Err(Refusal::Not16Bytes);
    }
    if LIMIT < a.len() || LIMIT < c.len() {
        return Err(Refusal::TooLong);
    }
    Ok(hash_of(path, key_at_start(key), a, c))
}
