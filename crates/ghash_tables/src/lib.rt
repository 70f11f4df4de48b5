// A key's tables for the fast product: the multiples of the key by four coefficients at a time, and the reductions of an overflow.
#![tactic(auto)]

ghost use Rattle.std.specs.Prelude.{◌≡◌, ◌+◌, ◌*◌, ◌%◌, ◌^◌, ◌≤◌, length};
ghost use Rattle.std.proofs.lemmas.List.Edits.{sets};
ghost use Rattle.ghash_block.specs.Block.{value_of, key_of};
ghost use Rattle.ghash_tables.specs.Table.{TableOf, ReductionsIn, ReductionsPut, MultiplesPut, four_of};
ghost use Rattle.gf128.specs.Field.{shifted};

use ghash_block::block::{Block, Key};
use ghash_plain::times_x;

// The numbers in a key's tables: four tables of sixteen blocks, then the reductions. One array, since it is lent whole and there is no heap.
pub const TABLES: usize = 144;

// The sixteen reductions of a four-bit overflow: the high half of each. The low halves are zero.
const REDUCTIONS: [u64; 16] = [
    0x0000_0000_0000_0000,
    0x1C20_0000_0000_0000,
    0x3840_0000_0000_0000,
    0x2460_0000_0000_0000,
    0x7080_0000_0000_0000,
    0x6CA0_0000_0000_0000,
    0x48C0_0000_0000_0000,
    0x54E0_0000_0000_0000,
    0xE100_0000_0000_0000,
    0xFD20_0000_0000_0000,
    0xD940_0000_0000_0000,
    0xC560_0000_0000_0000,
    0x9180_0000_0000_0000,
    0x8DA0_0000_0000_0000,
    0xA9C0_0000_0000_0000,
    0xB5E0_0000_0000_0000,
];

// Copies the reductions into the tables' last sixteen places: an indexed constant would be stored again at each use.
fn put_reductions(t: &mut [u64])
    requires { length t.old ≡ 144 }
    ensures { ReductionsPut t.old t.new }
{
    // Not `copy_from_slice`, which on RISC-V calls memcpy in each trap and each product.
    let r = REDUCTIONS;
    for n in 0..16 {
        t[128 + n] = r[n];
    }
}

// The high half of what the last 32 coefficients of v come back as, when they leave. The low half is zero.
// It takes no `Tables`: it is called while they are filled, when the reductions stand alone.
fn reduced(t: &[u64; TABLES], v: u64) -> u64
    ensures { ReductionsIn t.now → result * 2 ^ 64 ≡ shifted (v % 2 ^ 32) 32 }
{
    let mut high: u64 = 0;
    let mut rest = v;
    for _ in 0..8u32 {
        high = (high / 16) ^ t[128 + (rest % 16) as usize];
        rest /= 16;
    }
    high
}

// z times x^32. Its reductions wait for no other one, unlike those of eight times x^4.
fn times_x32(t: &[u64; TABLES], z: Block) -> Block
    ensures { ReductionsIn t.now → value_of result ≡ shifted (value_of z) 32 }
{
    let high = z.0;
    let low = z.1;
    Block(
        (high / 0x1_0000_0000) ^ reduced(t, low),
        low / 0x1_0000_0000 + high % 0x1_0000_0000 * 0x1_0000_0000,
    )
}

// Four entries, from `at` on: b, b xor h1, b xor h2, b xor h2 xor h1.
fn put_four(t: &mut [u64], at: usize, b: Block, h1: Block, h2: Block)
    requires { at + 8 ≤ length t.old }
    ensures { t.new ≡ sets t.old at (four_of b h1 h2) }
{
    t[at] = b.0;
    t[at + 1] = b.1;
    t[at + 2] = b.0 ^ h1.0;
    t[at + 3] = b.1 ^ h1.1;
    t[at + 4] = b.0 ^ h2.0;
    t[at + 5] = b.1 ^ h2.1;
    t[at + 6] = b.0 ^ h2.0 ^ h1.0;
    t[at + 7] = b.1 ^ h2.1 ^ h1.1;
}

// The sixteen multiples of h, from `at` on.
fn put_multiples(t: &mut [u64], at: usize, h: Block)
    requires { at + 32 ≤ length t.old }
    ensures { MultiplesPut t.old at (value_of h) 16 t.new }
{
    let h4 = times_x(h);
    let h2 = times_x(h4);
    let h1 = times_x(h2);
    put_four(t, at, Block::ZERO, h1, h2);
    put_four(t, at + 8, h4, h1, h2);
    put_four(t, at + 16, h, h1, h2);
    put_four(t, at + 24, h.xor(h4), h1, h2);
}

// Fills the tables of a key.
pub fn fill_tables(t: &mut [u64; TABLES], h: Key)
    ensures { TableOf (key_of h) t.new }
{
    put_reductions(t);
    let mut v = Block::from(h);
    put_multiples(t, 0, v);
    for q in 1..4 {
        v = times_x32(t, v);
        put_multiples(t, 32 * q, v);
    }
}

// A key with its tables. The numbers are lent, since a returned array would be copied.
#[derive(Clone, Copy)]
pub struct Tables<'a> {
    pub key: Key,
    pub numbers: &'a [u64; TABLES],
    pub ghost of_key: { TableOf (key_of key) numbers.now },
}

impl<'a> Tables<'a> {
    // Fills the numbers with the key's tables.
    pub fn fill(key: Key, numbers: &'a mut [u64; TABLES]) -> Tables<'a>
        ensures { result.key ≡ key }
    {
        fill_tables(numbers, key);
        Tables { key, numbers }
    }
}
