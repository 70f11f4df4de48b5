// The plain product: document 01's definition, bit by bit.
#![tactic(auto)]

ghost use Rattle.std.specs.Prelude.{◌≡◌, ◌<◌};
ghost use Rattle.ghash_block.specs.Block.{value_of, key_of};
ghost use Rattle.gf128.specs.Field.{coefficient, times_x, product};

use ghash_block::block::{Block, Key};

// The block times x.
pub fn times_x(v: Block) -> Block
    ensures { value_of result ≡ times_x (value_of v) }
{
    let high = v.0;
    let low = v.1;
    Block(
        (high / 2) ^ (low % 2 * 0xE100_0000_0000_0000),
        low / 2 + high % 2 * 0x8000_0000_0000_0000,
    )
}

// Coefficient k of a block.
fn coefficient(u: Block, k: u64) -> u64
    requires { k < 128 }
    ensures { result ≡ coefficient (value_of u) k }
{
    if k < 64 {
        return (u.0 >> (63 - k)) % 2;
    }
    (u.1 >> (127 - k)) % 2
}

// U·H on the plain path.
pub fn product_plain(u: Block, h: Key) -> Block
    ensures { value_of result ≡ product (value_of u) (key_of h) }
{
    let mut z = Block::ZERO;
    let mut v = Block::from(h);
    for k in 0..128 {
        if coefficient(u, k) == 1 {
            z = z.xor(v);
        }
        v = times_x(v);
    }
    z
}
