// Register groups: document 01, "Asked for a register group, the library hands back that group's own bytes of the lent file."
#![tactic(auto)]

ghost use Rattle.std.specs.Prelude.{◌+◌, ◌≡◌, length};
ghost use Rattle.std.specs.Result.{result_unwrap_or};
ghost use Rattle.refusal.specs.Refusal.{number_of};
ghost use Rattle.vector_group.specs.Group.{group_refusal, part_start, nowhere, part_of, group_of};

use refusal::Refusal;
use vector_registers::settings::{
    applies_1, group_length, lmul_allowed, misaligned, register_bytes,
};

// The register group that is asked for: VLEN in bits, LMUL in registers, and the group's first register. The host may pass any numbers.
#[derive(Clone, Copy)]
pub struct GroupAt {
    pub vlen: u32,
    pub lmul: u32,
    pub register: u32,
}

// The part of the file that a group is: its start and length in bytes. No `Range`, which is not Copy.
#[derive(Clone, Copy, PartialEq, Eq)]
pub struct Part {
    pub start: usize,
    pub length: usize,
}

impl Part {
    // No part: where a group is refused.
    const NOWHERE: Part = Part {
        start: 0,
        length: 0,
    };
}

impl GroupAt {
    // The separate question: 1 as in the table, 3 if LMUL isn't allowed, 6 if the register is over 31 or no multiple of LMUL, else 0.
    #[tactic(auto, unfolding(crate::specs::Group::group_refusal))]
    pub fn refusal(self, file_len: usize) -> Result<(), Refusal>
        ensures { number_of result ≡ group_refusal self.vlen file_len self.lmul self.register }
    {
        if applies_1(file_len, self.vlen) {
            return Err(Refusal::BadVlenOrFile);
        }
        if !lmul_allowed(self.lmul) {
            return Err(Refusal::BadSettings);
        }
        if 31 < self.register || misaligned(self.lmul, self.register) {
            return Err(Refusal::BadGroup);
        }
        Ok(())
    }

    // Where the group lies in a file of this length.
    pub fn part(self, file_len: usize) -> Result<Part, Refusal>
        ensures { (number_of result ≡ group_refusal self.vlen file_len self.lmul self.register)
            × (result_unwrap_or result nowhere ≡ part_of self.vlen file_len self.lmul self.register) }
    {
        self.refusal(file_len)?;
        Ok(Part {
            start: (self.register as usize) * register_bytes(self.vlen),
            length: group_length(self.vlen, self.lmul),
        })
    }
}

// The group's own bytes of the lent file; none where the group is refused.
#[tactic(auto, using(crate::proofs::Groups::part_within), unfolding(crate::specs::Group::group_of))]
pub fn group<'a>(file: &'a mut [u8], asked: GroupAt) -> &'a mut [u8]
    ensures { (result.now ≡ group_of asked.vlen file.old asked.lmul asked.register)
        × (result.ref_ptr.0 ≡ file.entry.ref_ptr.0)
        × (result.ref_ptr.1 ≡ file.entry.ref_ptr.1 + part_start asked.vlen (length file.old) asked.lmul asked.register) }
{
    let part = asked.part(file.len()).unwrap_or(Part::NOWHERE);
    &mut file[part.start..part.start + part.length]
}

// The same to read only: no type stands for `&mut` and `&` both.
#[tactic(auto, using(crate::proofs::Groups::part_within), unfolding(crate::specs::Group::group_of))]
pub fn group_read<'a>(file: &'a [u8], asked: GroupAt) -> &'a [u8]
    ensures { (result.now ≡ group_of asked.vlen file.now asked.lmul asked.register)
        × (result.ref_ptr.0 ≡ file.entry.ref_ptr.0)
        × (result.ref_ptr.1 ≡ file.entry.ref_ptr.1 + part_start asked.vlen (length file.now) asked.lmul asked.register) }
{
    let part = asked.part(file.len()).unwrap_or(Part::NOWHERE);
    &file[part.start..part.start + part.length]
}
