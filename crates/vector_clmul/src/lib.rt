// The carry-less words: document 01, "Execution", and the pseudocode of source 002. Elements are done one after the other, and
// each reads its sources before it is written.
#![tactic(auto)]

ghost use Rattle.std.specs.Prelude.{true, ◌≡◌};
ghost use Rattle.vector_registers.specs.Settings.{sew_allowed};

use octets_le::{read_le, write_le};
use vector_element::element::Operands;
use vector_product::clmul::{Half, clmul64, half_of, low_bits};

// The multiplier of an element: vs1's element, or one number for all elements. No Option: `None` would not say that it is vs1's element.
#[derive(Clone, Copy, PartialEq, Eq)]
pub enum Multiplier {
    Vs1,
    Scalar(u64),
}

// The elements of a word's groups: its operands, with an allowed SEW.
#[derive(Clone, Copy)]
pub struct Elements {
    pub operands: Operands,
    pub ghost sew_is_allowed: { sew_allowed operands.settings.sew ≡ true },
}

impl Elements {
    ghost use Rattle.vector_clmul.specs.Carryless.{element, scalar_of, multiplier_of, carryless_result, carryless_step, carryless};

    // Element i of a register group.
    fn element(self, register: u32, i: u32, file: &[u8]) -> u64
        ensures { result ≡ element self.operands.settings file.now register i }
    {
        let at = self.operands.element_at(register, i);
        read_le(file, at, (self.operands.settings.sew / 8) as usize)
    }

    // The multiplier of element i.
    fn multiplier_of(self, m: Multiplier, i: u32, file: &[u8]) -> u64
        ensures { result ≡ multiplier_of m self.operands.fields self.operands.settings file.now i }
    {
        match m {
            Multiplier::Vs1 => self.element(self.operands.fields.vs1, i, file),
            Multiplier::Scalar(x) => x,
        }
    }

    // Element i's result.
    #[tactic(auto, unfolding(crate::specs::Carryless::carryless_result))]
    fn carryless_result(self, which: Half, m: Multiplier, i: u32, file: &[u8]) -> u64
        ensures { result ≡ carryless_result which m self.operands.fields self.operands.settings file.now i }
    {
        let Operands { fields, settings } = self.operands;
        let p = clmul64(
            self.multiplier_of(m, i, file),
            self.element(fields.vs2, i, file),
        );
        half_of(which, u64::from(settings.sew), p)
    }

    // Element i is written, if it is active.
    #[tactic(auto, unfolding(crate::specs::Carryless::carryless_step))]
    fn carryless_step(self, which: Half, m: Multiplier, i: u32, file: &mut [u8])
        ensures { file.new ≡ carryless_step which m self.operands.fields self.operands.settings i file.old }
    {
        let Operands { fields, settings } = self.operands;
        if self.operands.active(i, file) {
            let v = self.carryless_result(which, m, i, file);
            let at = self.operands.element_at(fields.vd, i);
            write_le(file, at, (settings.sew / 8) as usize, v);
        }
    }

    // Elements vstart to vl - 1.
    pub fn carryless(self, which: Half, m: Multiplier, file: &mut [u8])
        ensures { file.new ≡ carryless which m self.operands.fields self.operands.settings file.old }
    {
        let s = self.operands.settings;
        for i in s.vstart..s.vl {
            self.carryless_step(which, m, i, file);
        }
    }

    // The scalar modulo 2^SEW; if rs1 is field 0 it counts as zero.
    pub fn scalar_of(self, scalar: u64) -> u64
        ensures { result ≡ scalar_of self.operands.fields self.operands.settings scalar }
    {
        match self.operands.fields.vs1 {
            0 => 0,
            _ => low_bits(u64::from(self.operands.settings.sew), scalar),
        }
    }
}
