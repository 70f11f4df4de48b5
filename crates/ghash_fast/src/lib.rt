// The fast product: four coefficients at a time, with the key's multiples in the tables of `ghash_tables`.
//
// U·H is the sum of U's four quarters of 32 coefficients, quarter q times H·x^(32·q), so that one chain of 8 steps
// serves all four. A step takes four coefficients of each quarter, from the last to the first: Z := Z·x^4 xor an
// entry of each table.
#![tactic(auto)]

ghost use Rattle.std.specs.Prelude.{◌≡◌, ℕ, ◌*◌, ◌<◌};
ghost use Rattle.ghash_block.specs.Block.{value_of};
ghost use Rattle.ghash_tables.specs.Table.{TableOf, ReductionsIn, nibble, entries_of};
ghost use Rattle.gf128.specs.Field.{product, shifted};

use ghash_block::block::Block;
use ghash_tables::TABLES;

// z times x^4.
fn times_x4(t: &[u64; TABLES], z: Block) -> Block
    ensures { ReductionsIn t.now → value_of result ≡ shifted (value_of z) 4 }
{
    let high = z.0;
    let low = z.1;
    let n = (low % 16) as usize;
    Block(
        (high / 16) ^ t[128 + n],
        low / 16 + high % 16 * 0x1000_0000_0000_0000,
    )
}

// Entry n of table q: the block of the four coefficients n, times H·x^(32·q).
fn entry(t: &[u64; TABLES], q: u64, n: u64) -> Block
    requires { (q < 4) × (n < 16) }
    ensures { (h : ℕ) → TableOf h t.now → value_of result ≡ product (nibble n) (shifted h (32 * q)) }
{
    let i = (32 * q + 2 * n) as usize;
    Block(t[i], t[i + 1])
}

// An entry of each table, added.
fn entries(t: &[u64; TABLES], a: u64, b: u64, c: u64, d: u64) -> Block
    requires { (a < 16) × (b < 16) × (c < 16) × (d < 16) }
    ensures { (h : ℕ) → TableOf h t.now → value_of result ≡ entries_of h a b c d }
{
    let first = entry(t, 0, a).xor(entry(t, 1, b));
    first.xor(entry(t, 2, c).xor(entry(t, 3, d)))
}

// U·H on the fast path, with the tables of H. The entries of a step are read one step ahead, so that the chain does
// not wait for them. It takes any numbers, and not a `ghash_tables::Tables`: docs/DECISIONS.md names it as safe and ending with any.
pub fn product_fast(t: &[u64; TABLES], u: Block) -> Block
    ensures { (h : ℕ) → TableOf h t.now → value_of result ≡ product (value_of u) h }
{
    let high = u.0;
    let low = u.1;
    let mut a = high / 0x1_0000_0000;
    let mut b = high % 0x1_0000_0000;
    let mut c = low / 0x1_0000_0000;
    let mut d = low % 0x1_0000_0000;
    let mut z = Block::ZERO;
    let mut e = entries(t, a % 16, b % 16, c % 16, d % 16);
    for _ in 0..7u32 {
        a /= 16;
        b /= 16;
        c /= 16;
        d /= 16;
        z = times_x4(t, z).xor(e);
        e = entries(t, a % 16, b % 16, c % 16, d % 16);
    }
    times_x4(t, z).xor(e)
}
