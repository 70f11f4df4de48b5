// The inverse of a key, by division: extended Euclid in the field, with the degree from the trailing zeros of the halves.
//
// A row is a value and a factor with H·factor = value in the field. A turn adds x^k times one row to the other, with k the
// difference of the degrees, so that the larger degree falls. At degree 0 the value is the one block, and its factor is the
// inverse.
ghost use Rattle.std.specs.Prelude.{◌≢◌, ◌≡◌, ◌+◌, ◌-◌, ◌/◌, ◌^◌, ◌<◌, ◌≤◌};
ghost use Rattle.std.specs.Int.Bits.{bit_xor};
ghost use Rattle.ghash_block.specs.Block.{value_of, key_of};
ghost use Rattle.gf128.specs.Degree.{degree_of};
ghost use Rattle.gf128.specs.Field.{one};
ghost use Rattle.ghash_inverse.specs.Inverse.{Inverts, Divides};

use ghash_block::block::{Block, Key, degree};
use ghash_plain::times_x;

// The block's number divided by 2^k: the block times x^k, where no coefficient passes place 127.
fn shift(v: Block, k: u32) -> Block
    requires { k < 128 }
    ensures { value_of result ≡ value_of v / 2 ^ k }
{
    if k < 64 {
        Block(v.0 >> k, (v.1 >> k) | ((v.0 << (63 - k)) << 1))
    } else {
        Block(0, v.0 >> (k - 64))
    }
}

// H·factor = value, and the value's degree.
#[derive(Clone, Copy)]
struct Row {
    value: Block,
    factor: Block,
    degree: u32,
    ghost of_value: { degree ≡ degree_of (value_of value) },
}

impl Row {
    fn new(value: Block, factor: Block) -> Row
        ensures { (result.value ≡ value) × (result.factor ≡ factor) }
    {
        Row {
            value,
            factor,
            degree: degree(value).unwrap_or(0),
        }
    }

    // This row and x^k times a smaller one, added.
    fn reduced_by(self, smaller: Row) -> Row
        requires { smaller.degree ≤ self.degree }
        ensures { (value_of result.value ≡ bit_xor (value_of self.value) (value_of smaller.value / 2 ^ (self.degree - smaller.degree)))
            × (value_of result.factor ≡ bit_xor (value_of self.factor) (value_of smaller.factor / 2 ^ (self.degree - smaller.degree))) }
    {
        let k = self.degree - smaller.degree;
        Row::new(
            self.value.xor(shift(smaller.value, k)),
            self.factor.xor(shift(smaller.factor, k)),
        )
    }
}

// The two rows of a division, for a key H that is not zero: the first is the one that was reduced last.
#[derive(Clone, Copy)]
struct Division {
    h: Block,
    first: Row,
    second: Row,
    ghost rows: { Divides (value_of h) (value_of first.value) (value_of first.factor) first.degree (value_of second.value) (value_of second.factor) second.degree },
}

impl Division {
    // The first two rows, for a key of degree d > 0: H·x^(128-d), which reduces, and H itself.
    fn start(h: Block) -> Division
        requires { (value_of h ≢ 0) × (value_of h ≢ one) }
        ensures { result.h ≡ h }
    {
        let second = Row::new(h, Block::ONE);
        let d = second.degree;
        let first = Row::new(times_x(shift(h, 127 - d)), shift(Block::ONE, 128 - d));
        Division { h, first, second }
    }

    // One turn: the row of the larger degree is reduced, and comes first.
    fn turn(self) -> Division
        requires { 0 < self.first.degree }
        ensures { (result.h ≡ self.h)
            × (result.first.degree + result.second.degree < self.first.degree + self.second.degree) }
    {
        let Division { h, first, second } = self;
        if first.degree < second.degree {
            return Division {
                h,
                first: second.reduced_by(first),
                second: first,
            };
        }
        Division {
            h,
            first: first.reduced_by(second),
            second,
        }
    }
}

// The inverse of H, which every key but the zero one has, by turns until the first degree is 0. The sum of the two degrees
// falls at each turn.
pub fn inverse_of(h: Key) -> Option<Block>
    ensures { Inverts (key_of h) result }
{
    let v = Block::from(h);
    if v == Block::ZERO {
        return None;
    }
    if v == Block::ONE {
        return Some(v);
    }
    let mut division = Division::start(v);
    while division.first.degree != 0 {
        division = division.turn();
    }
    Some(division.first.factor)
}
