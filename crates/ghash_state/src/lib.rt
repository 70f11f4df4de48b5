// What a running hash holds, and when it is malformed.
#![tactic(auto)]

ghost use Rattle.std.specs.Prelude.{◌≡◌, drop};
ghost use Rattle.ghash_block.specs.Block.{value_of};
ghost use Rattle.ghash_state.specs.State.{view, state_of, spare_zeros, Fresh, part_of, held, none_open};
ghost use Rattle.gf128.specs.Running.{all_zero, open_bytes, malformed};

use ghash_block::block::Block;

// The most bytes that A may have, and C.
pub const LIMIT: usize = 1048576;

// Y, the open block, the bytes of A and of C so far, and the phase: 0 takes A, 1 takes C, 2 is finished. The spare bytes
// fill the struct up, so that no byte of a caller's struct is left to chance. C has this struct, so the phase is a number.
#[repr(C)]
#[derive(Clone, Copy)]
pub struct Running {
    pub y: Block,
    pub open_block: [u8; 16],
    pub a_count: u32,
    pub c_count: u32,
    pub phase: u8,
    pub spare: [u8; 7],
}

// Y and the open block.
#[derive(Clone, Copy)]
pub struct Part {
    pub y: Block,
    pub bytes: [u8; 16],
}

impl Part {
    // Y with no byte open.
    pub fn none_open(y: Block) -> Part
        ensures { part_of result ≡ none_open (value_of y) }
    {
        Part { y, bytes: [0; 16] }
    }
}

// Y and the open block of a running hash.
impl From<Running> for Part {
    ghost from_gives = { λ s p. part_of p ≡ held (view s) };

    fn from(state: Running) -> Part {
        let bytes = state.open_block;
        Part { y: state.y, bytes }
    }
}

impl Running {
    pub fn new() -> Running
        ensures { Fresh result }
    {
        Running::of(Part::none_open(Block::ZERO), 0, 0, 0)
    }

    // What a call that is done leaves: its spare bytes are zeros.
    pub fn of(part: Part, a_count: u32, c_count: u32, phase: u8) -> Running
        ensures { (view result ≡ state_of (part_of part) a_count c_count phase) × (result.spare ≡ spare_zeros) }
    {
        let bytes = part.bytes;
        Running {
            y: part.y,
            open_block: bytes,
            a_count,
            c_count,
            phase,
            spare: [0; 7],
        }
    }

    // The bytes of the open block that are in use: the count of the current part modulo 16; none in phase 2.
    fn open_bytes(self) -> usize
        ensures { result ≡ open_bytes (view self) }
    {
        match self.phase {
            0 => (self.a_count % 16) as usize,
            1 => (self.c_count % 16) as usize,
            _ => 0,
        }
    }

    // In phase 0 no byte of C is counted, and the open block's bytes that are not in use are zeros.
    pub fn is_malformed(self) -> bool
        ensures { result ≡ malformed (view self) }
    {
        2 < self.phase
            || LIMIT < self.a_count as usize
            || LIMIT < self.c_count as usize
            || (self.phase == 0 && self.c_count != 0)
            || !zeros_from(&self.open_block, self.open_bytes())
    }
}

// Whether all bytes from a place on are zeros.
pub fn zeros_from(s: &[u8], from: usize) -> bool
    ensures { result ≡ all_zero (drop from s.now) }
{
    s.iter().skip(from).all(|b| *b == 0)
}
