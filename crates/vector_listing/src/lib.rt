// The text of a word, written to a lent buffer: document 02, Ask 1.
#![tactic(auto)]

ghost use Rattle.std.specs.Prelude.{◌≡◌, ◌++◌, ◌+◌, ◌<◌, ◌≤◌, length};
ghost use Rattle.vector_word.specs.Word.{decode};
ghost use Rattle.vector_listing.specs.Text.{mnemonic, digit, decimal, third_of, third, mask, text};
ghost use Rattle.vector_listing.specs.Listing.{Registers, Puts, listed, listed_into, answered};

use octets_slice::put;
use refusal::Refusal;
use vector_kind::{Form, Kind};
use vector_word::{Instruction, decode};

// What the vs1 field is in a word's text: the vector register vs1, or the scalar register rs1.
#[derive(Clone, Copy, PartialEq, Eq)]
pub enum Third {
    Vs1,
    Rs1,
}

fn digit(d: u32) -> u8
    requires { d < 10 }
    ensures { result ≡ digit d }
{
    (48 + d) as u8
}

// What the vs1 field is in the texts of this kind, where they show it.
fn third_of(k: Kind) -> Option<Third>
    ensures { result ≡ third_of k }
{
    let t = k.traits();
    if t.vs1_group {
        return Some(Third::Vs1);
    }
    match t.form {
        Form::Vx => Some(Third::Rs1),
        Form::Vv | Form::Vs => None,
    }
}

// A text that is being written: the buffer, and the place after what stands there. No `Display`: no clause can say what its
// `fmt` writes, and the text is promised byte by byte. That the buffer stays the same one is said by each method: no ghost field can.
#[derive(Drop)]
struct Cursor<'a> {
    text: &'a mut [u8],
    at: usize,
}

impl Cursor<'_> {
    fn put(&mut self, part: &[u8])
        requires { (self.old.at ≤ 32) × (length part.now ≤ 32) }
        ensures same_buffer { self.new.text.ghost_name ≡ self.old.text.ghost_name }
        ensures puts { Puts self.old.text.now self.old.at part.now self.new.at self.new.text.now }
    {
        put(self.text, self.at, part);
        self.at += part.len();
    }

    // The kind's mnemonic, at the start. Eight calls: a table of texts would be data that the linker writes, and the archive has
    // none (docs/INTEGRATION.md).
    fn put_mnemonic(&mut self, k: Kind)
        requires { self.old.at ≡ 0 }
        ensures same_buffer { self.new.text.ghost_name ≡ self.old.text.ghost_name }
        ensures puts { Puts self.old.text.now self.old.at (mnemonic k) self.new.at self.new.text.now }
        ensures short { self.new.at ≤ 10 }
    {
        match k {
            Kind::VclmulVv => self.put(b"vclmul.vv"),
            Kind::VclmulVx => self.put(b"vclmul.vx"),
            Kind::VclmulhVv => self.put(b"vclmulh.vv"),
            Kind::VclmulhVx => self.put(b"vclmulh.vx"),
            Kind::VghshVv => self.put(b"vghsh.vv"),
            Kind::VghshVs => self.put(b"vghsh.vs"),
            Kind::VgmulVv => self.put(b"vgmul.vv"),
            Kind::VgmulVs => self.put(b"vgmul.vs"),
        }
    }

    // A number in decimal, without leading zeros.
    fn put_decimal(&mut self, n: u32)
        requires { (self.old.at ≤ 32) × (n < 100) }
        ensures same_buffer { self.new.text.ghost_name ≡ self.old.text.ghost_name }
        ensures puts { Puts self.old.text.now self.old.at (decimal n) self.new.at self.new.text.now }
    {
        if n < 10 {
            self.put(&[digit(n)]);
        } else {
            self.put(&[digit(n / 10), digit(n % 10)]);
        }
    }

    // An operand: what leads it, and its number.
    fn put_operand(&mut self, lead: &[u8], n: u32)
        requires { (self.old.at + length lead.now ≤ 32) × (n < 100) }
        ensures same_buffer { self.new.text.ghost_name ≡ self.old.text.ghost_name }
        ensures puts { Puts self.old.text.now self.old.at (lead.now ++ decimal n) self.new.at self.new.text.now }
        ensures short { self.new.at ≤ self.old.at + length lead.now + 2 }
    {
        self.put(lead);
        self.put_decimal(n);
    }

    // The third operand, where there is one.
    fn put_third(&mut self, t: Option<Third>, n: u32)
        requires { (self.old.at ≤ 29) × (n < 100) }
        ensures same_buffer { self.new.text.ghost_name ≡ self.old.text.ghost_name }
        ensures puts { Puts self.old.text.now self.old.at (third t n) self.new.at self.new.text.now }
        ensures short { self.new.at ≤ self.old.at + 5 }
    {
        match t {
            Some(Third::Vs1) => self.put_operand(b", v", n),
            Some(Third::Rs1) => self.put_operand(b", x", n),
            None => {}
        }
    }

    // The mask, where there is one.
    fn put_mask(&mut self, vm: u32)
        requires { self.old.at ≤ 32 }
        ensures same_buffer { self.new.text.ghost_name ≡ self.old.text.ghost_name }
        ensures puts { Puts self.old.text.now self.old.at (mask vm) self.new.at self.new.text.now }
    {
        if vm == 0 {
            self.put(b", v0.t");
        }
    }

    // The whole text of an instruction, at the start.
    fn put_text(&mut self, i: Instruction)
        requires start { self.old.at ≡ 0 }
        requires registers { Registers i.fields }
        ensures same_buffer { self.new.text.ghost_name ≡ self.old.text.ghost_name }
        ensures puts { Puts self.old.text.now self.old.at (text i.kind i.fields) self.new.at self.new.text.now }
    {
        let f = i.fields;
        self.put_mnemonic(i.kind);
        self.put_operand(b" v", f.vd);
        self.put_operand(b", v", f.vs2);
        self.put_third(third_of(i.kind), f.vs1);
        self.put_mask(f.vm);
    }
}

// The listing of a word: its text from the start of the buffer on, and the text's length.
pub fn list(word: u32, text: &mut [u8]) -> Result<usize, Refusal>
    ensures answer { answered result ≡ listed (length text.old) (decode word) }
    ensures text { text.new ≡ listed_into text.old (decode word) }
{
    let i = decode(word).ok_or(Refusal::NotAWord)?;
    if text.len() < 32 {
        return Err(Refusal::ShortText);
    }
    let mut cursor = Cursor { text, at: 0 };
    cursor.put_text(i);
    Ok(cursor.at)
}
