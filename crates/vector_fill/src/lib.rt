// What the tail and mask policies fill with ones bits: document 02, Ask 5.
#![tactic(auto)]

ghost use Rattle.std.specs.Prelude.{◌≡◌};
ghost use Rattle.vector_fill.specs.Fill.{ones_between, group_end, ones_in_element, mask_step, mask_filled, tail_filled, filled};

use vector_element::element::Operands;
use vector_registers::settings::{group_length, register_bytes};

// Ones bits in the bytes from `from` to before `to`. Places past the end are left out.
fn ones_between(from: usize, to: usize, file: &mut [u8])
    ensures { file.new ≡ ones_between from to file.old }
{
    let end = to.min(file.len());
    if from < end {
        file[from..end].fill(255);
    }
}

// The place after the last byte of the group at a register.
fn group_end(vlen: u32, lmul: u32, register: u32) -> usize
    ensures { result ≡ group_end vlen lmul register }
{
    (register as usize) * register_bytes(vlen) + group_length(vlen, lmul)
}

// Ones bits in element i of the group at a register. Byte by byte: with the slice's fill a word takes about 5 % longer where half of
// its elements are masked off.
fn ones_in_element(operands: Operands, register: u32, i: u32, file: &mut [u8])
    ensures { file.new ≡ ones_in_element operands.settings.vlen operands.settings.sew register i file.old }
{
    let at = operands.element_at(register, i);
    for p in at..at + (operands.settings.sew / 8) as usize {
        if p < file.len() {
            file[p] = 255;
        }
    }
}

// Element i of vd's group, unless it is active.
#[tactic(auto, unfolding(crate::specs::Fill::mask_step))]
fn mask_step(operands: Operands, i: u32, file: &mut [u8])
    ensures { file.new ≡ mask_step operands.fields operands.settings i file.old }
{
    if !operands.active(i, file) {
        ones_in_element(operands, operands.fields.vd, i, file);
    }
}

// Mask agnostic: the elements vstart to vl - 1 that are not active.
#[tactic(auto, unfolding(crate::specs::Fill::mask_filled))]
fn mask_fill(operands: Operands, file: &mut [u8])
    ensures { file.new ≡ mask_filled operands.fields operands.settings file.old }
{
    let s = operands.settings;
    if s.vma {
        for i in s.vstart..s.vl {
            mask_step(operands, i, file);
        }
    }
}

// Tail agnostic: from element vl on to the end of vd's group.
#[tactic(auto, unfolding(crate::specs::Fill::tail_filled))]
fn tail_fill(operands: Operands, file: &mut [u8])
    ensures { file.new ≡ tail_filled operands.fields operands.settings file.old }
{
    let s = operands.settings;
    let vd = operands.fields.vd;
    if s.vta {
        let tail = operands.element_at(vd, s.vl);
        ones_between(tail, group_end(s.vlen, s.lmul, vd), file);
    }
}

// What both policies fill, after the active elements are done. Nothing where vstart is at or past vl.
#[tactic(auto, unfolding(crate::specs::Fill::filled))]
pub fn fill(operands: Operands, file: &mut [u8])
    ensures { file.new ≡ filled operands.fields operands.settings file.old }
{
    let s = operands.settings;
    if s.vstart < s.vl {
        mask_fill(operands, file);
        tail_fill(operands, file);
    }
}
