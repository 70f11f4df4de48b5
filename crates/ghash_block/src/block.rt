// Blocks and keys, and a block's degree.
ghost use Rattle.std.specs.Prelude.{◌≡◌, ◌^◌};
ghost use Rattle.std.specs.Int.Bits.{bit_xor};
ghost use Rattle.ghash_block.specs.Block.{value_of, key_of};
ghost use Rattle.ghash_block.specs.Degree.{place_number, place_or_zero};
ghost use Rattle.gf128.specs.Degree.{degree_of, degree_refusal};

// A data block: the number of its 16 bytes, read big-endian, as its high and its low half.
#[repr(C)]
#[derive(Clone, Copy, PartialEq, Eq)]
pub struct Block(pub u64, pub u64);

// A hash key, read from bytes as a block is. It is a type of its own, so that a key is never passed for a block.
#[repr(C)]
#[derive(Clone, Copy, PartialEq, Eq)]
pub struct Key(pub u64, pub u64);

impl Block {
    // The zero block.
    pub const ZERO: Block = Block(0, 0);

    // The one block: 80 then fifteen 00.
    pub const ONE: Block = Block(0x8000_0000_0000_0000, 0);

    pub fn new(high: u64, low: u64) -> Block
        ensures { (result.0 ≡ high) × (result.1 ≡ low) }
    {
        Block(high, low)
    }

    pub fn zero() -> Block
        ensures { value_of result ≡ 0 }
    {
        Block::ZERO
    }

    pub fn one() -> Block
        ensures { value_of result ≡ 2 ^ 127 }
    {
        Block::ONE
    }

    pub fn xor(self, other: Block) -> Block
        ensures { value_of result ≡ bit_xor (value_of self) (value_of other) }
    {
        Block(self.0 ^ other.0, self.1 ^ other.1)
    }
}

impl Key {
    pub fn new(high: u64, low: u64) -> Key
        ensures { (result.0 ≡ high) × (result.1 ≡ low) }
    {
        Key(high, low)
    }
}

// A key's block.
impl From<Key> for Block {
    ghost from_gives = { λ h b. value_of b ≡ key_of h };

    fn from(h: Key) -> Block {
        Block(h.0, h.1)
    }
}

// The key that a block is, as where it was read from bytes.
impl From<Block> for Key {
    ghost from_gives = { λ b h. key_of h ≡ value_of b };

    fn from(b: Block) -> Key {
        Key::new(b.0, b.1)
    }
}

// The place of the highest nonzero coefficient; the zero block has none.
pub fn degree(b: Block) -> Option<u32>
    ensures { (place_number result ≡ degree_refusal (value_of b)) × (place_or_zero result ≡ degree_of (value_of b)) }
{
    if b.1 != 0 {
        return Some(127 - u64::trailing_zeros(b.1));
    }
    if b.0 != 0 {
        return Some(63 - u64::trailing_zeros(b.0));
    }
    None
}
