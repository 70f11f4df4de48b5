// The steps of the hash on the plain and on the fast path: one block, the blocks of a slice, and the block of the lengths.
#![tactic(auto)]

ghost use Rattle.std.specs.Prelude.{◌≡◌, ◌≤◌};
ghost use Rattle.ghash_block.specs.Answer.{ProductAnswer};
ghost use Rattle.ghash_block.specs.Block.{value_of, key_of};
ghost use Rattle.ghash_step.specs.Path.{TablesPut, IsPrepared};
ghost use Rattle.gf128.specs.Field.{product};
ghost use Rattle.gf128.specs.Hash.{limit, next, over, blocks_of, length_block};

use ghash_block::block::{Block, Key};
use ghash_bytes::{block_at, key_at_start};
use ghash_fast::product_fast;
use ghash_plain::product_plain;
use ghash_tables::{TABLES, fill_tables};
use refusal::Refusal;

// Which product a call uses: the plain path is bit by bit, the fast path four coefficients at a time. A value and no type parameter: the
// two differ in one product, and with a parameter all code above it would be there twice.
#[derive(Clone, Copy)]
pub enum Path {
    Plain,
    Fast,
}

// Fills the tables that a call on this path multiplies with; the plain path needs none and leaves them. They are lent,
// since a returned array would be copied.
pub fn put_tables(path: Path, key: Key, t: &mut [u64; TABLES])
    ensures { TablesPut path key t.old t.new }
{
    match path {
        Path::Plain => {}
        Path::Fast => fill_tables(t, key),
    }
}

// A key made ready for a path. That the numbers are its tables is no ghost field: docs/DECISIONS.md names `next` and
// `over_blocks` as safe and ending with any numbers.
#[derive(Clone, Copy)]
pub struct PreparedKey<'a> {
    pub path: Path,
    pub key: Key,
    // The key's tables on the fast path; the plain path does not look at them.
    pub numbers: &'a [u64; TABLES],
}

impl<'a> PreparedKey<'a> {
    pub fn new(path: Path, key: Key, numbers: &'a mut [u64; TABLES]) -> PreparedKey<'a>
        ensures path_kept { result.path ≡ path }
        ensures key_kept { result.key ≡ key }
        ensures prepared { IsPrepared result }
    {
        put_tables(path, key, numbers);
        PreparedKey { path, key, numbers }
    }

    // One block: (Y xor X)·H.
    pub fn next(&self, y: Block, x: Block) -> Block
        ensures { IsPrepared self.now
            → value_of result ≡ next (key_of self.now.key) (value_of y) (value_of x) }
    {
        match self.path {
            Path::Plain => product_plain(y.xor(x), self.key),
            Path::Fast => product_fast(self.numbers, y.xor(x)),
        }
    }

    // The partial hash after the blocks of s, padded with zeros, from y.
    pub fn over_blocks(&self, y: Block, s: &[u8]) -> Block
        ensures { IsPrepared self.now
            → value_of result ≡ over (key_of self.now.key) (value_of y) (blocks_of s.now) }
    {
        let mut hash = y;
        for block in s.chunks(16) {
            hash = self.next(hash, block_at(block, 0));
        }
        hash
    }
}

// U·H on a path. Only the fast path has room for tables, and fills it.
fn product_on(path: Path, u: Block, h: Key) -> Block
    ensures { value_of result ≡ product (value_of u) (key_of h) }
{
    match path {
        Path::Plain => product_plain(u, h),
        Path::Fast => {
            let mut numbers = [0u64; TABLES];
            fill_tables(&mut numbers, h);
            product_fast(&numbers, u)
        }
    }
}

// The product of a key and a block given as bytes. Inline, so that a call on the plain path has no tables on its stack.
#[inline(always)]
pub fn product_bytes(path: Path, key: &[u8], block: &[u8]) -> Result<Block, Refusal>
    ensures { ProductAnswer key.now block.now result }
{
    if key.len() != 16 || block.len() != 16 {
        return Err(Refusal::Not16Bytes);
    }
    Ok(product_on(path, block_at(block, 0), key_at_start(key)))
}

// The bit lengths of A and C, as one block.
pub fn length_block(a: usize, c: usize) -> Block
    requires { (a ≤ limit) × (c ≤ limit) }
    ensures { value_of result ≡ length_block a c }
{
    Block::new(8 * a as u64, 8 * c as u64)
}
