// The refusal of a word under its settings: document 01's numbers 0 to 8.
#![tactic(auto)]

ghost use Rattle.std.specs.Prelude.{◌≡◌, IfOk};
ghost use Rattle.refusal.specs.Refusal.{number_of};
ghost use Rattle.vector_word.specs.Word.{decode};
ghost use Rattle.vector_refusal.specs.Refusal.{applies4, applies5, applies6, applies7, applies8, refusal_of_known, refusal_of_decoded, refusal_of};

use refusal::Refusal;
use vector_registers::settings::{Settings, applies_1, applies_3, misaligned, occupies};
use vector_word::{Instruction, decode};

// ---- each number, in the table's words
// A word and its settings are two parameters: one struct of both would be no plainer, as each line would name it before every field.

// A GHASH word and SEW is not 32.
fn applies_4(i: Instruction, s: Settings) -> bool
    ensures { result ≡ applies4 i.kind s }
{
    i.kind.is_ghash() && s.sew != 32
}

// A GHASH word and vl or vstart no multiple of 4.
fn applies_5(i: Instruction, s: Settings) -> bool
    ensures { result ≡ applies5 i.kind s }
{
    i.kind.is_ghash() && (s.vl % 4 != 0 || s.vstart % 4 != 0)
}

// A register group's number is no multiple of LMUL: vd; vs2 except in .vs words; vs1 where it is a group.
fn applies_6(i: Instruction, s: Settings) -> bool
    ensures { result ≡ applies6 i.kind i.fields s }
{
    misaligned(s.lmul, i.fields.vd)
        || (!i.kind.is_vs() && misaligned(s.lmul, i.fields.vs2))
        || (i.kind.has_vs1_group() && misaligned(s.lmul, i.fields.vs1))
}

// A .vs word and vd ≤ vs2 < vd + LMUL.
fn applies_7(i: Instruction, s: Settings) -> bool
    ensures { result ≡ applies7 i.kind i.fields s }
{
    i.kind.is_vs() && occupies(s.lmul, i.fields.vd, i.fields.vs2)
}

// vm is 0 and vd, vs2 or (.vv) vs1 is register 0.
fn applies_8(i: Instruction) -> bool
    ensures { result ≡ applies8 i.kind i.fields }
{
    i.fields.vm == 0
        && (i.fields.vd == 0 || i.fields.vs2 == 0 || (i.kind.is_vv() && i.fields.vs1 == 0))
}

// ---- the smallest that applies, or none

// The refusal of one of the eight words, whatever the file.
#[tactic(auto, unfolding(crate::specs::Refusal::refusal_of_known))]
fn refusal_of_known(i: Instruction, s: Settings) -> Result<(), Refusal>
    ensures { number_of result ≡ refusal_of_known i.kind i.fields s }
{
    if applies_3(s) {
        return Err(Refusal::BadSettings);
    }
    if applies_4(i, s) {
        return Err(Refusal::SewNot32);
    }
    if applies_5(i, s) {
        return Err(Refusal::NotMultipleOf4);
    }
    if applies_6(i, s) {
        return Err(Refusal::BadGroup);
    }
    if applies_7(i, s) {
        return Err(Refusal::KeyOverlap);
    }
    if applies_8(i) {
        return Err(Refusal::MaskOverlap);
    }
    Ok(())
}

// What a decoded word is, where it can be done under the settings on a file of this length; else the smallest refusal that applies.
pub fn refusal_of(
    file_len: usize,
    w: Option<Instruction>,
    s: Settings,
) -> Result<Instruction, Refusal>
    ensures number { number_of result ≡ refusal_of_decoded file_len w s }
    ensures decoded { IfOk result (λ i. w ≡ Some i) }
{
    if applies_1(file_len, s.vlen) {
        return Err(Refusal::BadVlenOrFile);
    }
    let i = w.ok_or(Refusal::NotAWord)?;
    refusal_of_known(i, s)?;
    Ok(i)
}

// The same of a word.
#[tactic(auto, unfolding(crate::specs::Refusal::refusal_of))]
pub fn refusal(file_len: usize, word: u32, s: Settings) -> Result<Instruction, Refusal>
    ensures number { number_of result ≡ refusal_of file_len word s }
    ensures decoded { IfOk result (λ i. decode word ≡ Some i) }
{
    refusal_of(file_len, decode(word), s)
}
