// Where elements and 128-bit groups of a register group lie, and mask bits: document 01, "Registers and settings".
// A mask bit past the end of the file is 0, so that no caller has a bound to show.
ghost use Rattle.std.specs.Prelude.{◌≡◌};
ghost use Rattle.vector_element.specs.Element.{element_at, block_place, mask_bit, active};

use octets::byte_or_zero;
use vector_registers::settings::{Settings, register_bytes};
use vector_word::Fields;

// What a word's elements and groups are found by: its fields, and the settings that it meets.
#[derive(Clone, Copy)]
pub struct Operands {
    pub fields: Fields,
    pub settings: Settings,
}

impl Operands {
    // Where element i of the group at a register starts.
    pub fn element_at(self, register: u32, i: u32) -> usize
        ensures { result ≡ element_at self.settings.vlen self.settings.sew register i }
    {
        let Settings { vlen, sew, .. } = self.settings;
        (register as usize) * register_bytes(vlen) + (i as usize) * (sew as usize / 8)
    }

    // Where group i of 128 bits of the register group at a register starts.
    pub fn block_place(self, register: u32, i: u32) -> usize
        ensures { result ≡ block_place self.settings.vlen register i }
    {
        let vlen = self.settings.vlen;
        (register as usize) * register_bytes(vlen) + 16 * (i as usize)
    }

    // An element is active where vm is 1 or its mask bit is 1.
    pub fn active(self, i: u32, file: &[u8]) -> bool
        ensures { result ≡ active self.fields file.now i }
    {
        self.fields.vm == 1 || mask_bit(file, i) == 1
    }
}

// Mask bit i.
#[tactic(auto, unfolding(crate::specs::Element::mask_bit))]
pub fn mask_bit(file: &[u8], i: u32) -> u64
    ensures { result ≡ mask_bit file.now i }
{
    (byte_or_zero(file, (i / 8) as usize) >> (i % 8)) % 2
}
