// The GHASH words: document 01, "Execution", and the pseudocode of sources 000 and 002. Groups are done one after the other, and
// each reads its sources before it is written.
#![tactic(auto)]

ghost use Rattle.std.specs.Prelude.{◌≡◌};
ghost use Rattle.ghash_block.specs.Block.{value_of, key_of};
ghost use Rattle.vector_ghash.specs.GhashWords.{group, multiplier_of, vv_step, vs_step, ghash_vv, ghash_vs};

use ghash_block::block::{Block, Key};
use ghash_bytes::{block_at, put_block};
use ghash_fast::product_fast;
use ghash_tables::{TABLES, Tables};
use vector_element::element::Operands;

// The multiplier, of which source 002 calls H the multiplicand: Y xor X in vghsh, Y in vgmul.
#[derive(Clone, Copy, PartialEq, Eq)]
pub enum GhashMultiplier {
    YXorX,
    YAlone,
}

// Group i of 128 bits of a register group.
fn group(operands: Operands, register: u32, i: u32, file: &[u8]) -> Block
    ensures { value_of result ≡ group operands.settings file.now register i }
{
    block_at(file, operands.block_place(register, i))
}

// The key in group i of vs2.
fn key_in(operands: Operands, i: u32, file: &[u8]) -> Key
    ensures { key_of result ≡ group operands.settings file.now operands.fields.vs2 i }
{
    Key::from(group(operands, operands.fields.vs2, i, file))
}

// The multiplier of group i.
fn multiplier_of(m: GhashMultiplier, operands: Operands, i: u32, file: &[u8]) -> Block
    ensures { value_of result ≡ multiplier_of m operands.fields operands.settings file.now i }
{
    let y = group(operands, operands.fields.vd, i, file);
    match m {
        GhashMultiplier::YXorX => y.xor(group(operands, operands.fields.vs1, i, file)),
        GhashMultiplier::YAlone => y,
    }
}

// Group i with the key whose tables are given.
#[tactic(auto, unfolding(crate::specs::GhashWords::vs_step))]
fn vs_step(key: Tables, m: GhashMultiplier, operands: Operands, i: u32, file: &mut [u8])
    ensures { file.new ≡ vs_step (key_of key.entry.key) m operands.fields operands.settings i file.old }
{
    let z = product_fast(key.numbers, multiplier_of(m, operands, i, file));
    put_block(file, operands.block_place(operands.fields.vd, i), z);
}

// Group i with the key in group i of vs2, whose tables are filled here.
#[tactic(auto, unfolding(crate::specs::GhashWords::vv_step, crate::specs::GhashWords::vs_step))]
fn vv_step(
    numbers: &mut [u64; TABLES],
    m: GhashMultiplier,
    operands: Operands,
    i: u32,
    file: &mut [u8],
)
    ensures { file.new ≡ vv_step m operands.fields operands.settings i file.old }
{
    let key = Tables::fill(key_in(operands, i, file), numbers);
    vs_step(key, m, operands, i, file);
}

// Groups vstart/4 to vl/4 - 1, each with a key of its own. Not inline, nor the other: the executor's frame would have the tables of both.
#[inline(never)]
pub fn ghash_vv(m: GhashMultiplier, operands: Operands, file: &mut [u8])
    ensures { file.new ≡ ghash_vv m operands.fields operands.settings file.old }
{
    let mut numbers = [0u64; TABLES];
    let s = operands.settings;
    for i in s.vstart / 4..s.vl / 4 {
        vv_step(&mut numbers, m, operands, i, file);
    }
}

// The same groups, with one key, which is read before any write.
#[inline(never)]
pub fn ghash_vs(m: GhashMultiplier, operands: Operands, file: &mut [u8])
    ensures { file.new ≡ ghash_vs m operands.fields operands.settings file.old }
{
    let mut numbers = [0u64; TABLES];
    let key = Tables::fill(key_in(operands, 0, file), &mut numbers);
    let s = operands.settings;
    for i in s.vstart / 4..s.vl / 4 {
        vs_step(key, m, operands, i, file);
    }
}
