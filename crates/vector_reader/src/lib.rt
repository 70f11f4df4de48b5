// The reader: from the text of a word back to the word. What a text seems to say is written, listed again and compared with it, so that
// exactly the texts of words are taken.
#![tactic(auto)]

ghost use Rattle.std.specs.Prelude.{◌≡◌, ◌+◌, ◌≤◌};
ghost use Rattle.vector_word.specs.Writer.{answered};
ghost use Rattle.vector_reader.specs.Scan.{either, kind_in, scanned, operands_at, has_third, vm_at, fields_after, fields_in};
ghost use Rattle.vector_reader.specs.Reading.{Reads};

use octets::byte_or_zero;
use octets_slice::same;
use refusal::Refusal;
use vector_kind::Kind;
use vector_listing::list;
use vector_word::{Fields, Instruction, encode};

// A number in a text, and the place after it.
#[derive(Clone, Copy, PartialEq, Eq)]
pub struct Scanned {
    pub value: u32,
    pub end: usize,
}

// One kind if this byte stands at a place, else the other.
fn either(s: &[u8], at: usize, b: u8, one: Kind, other: Kind) -> Kind
    ensures { result ≡ either s.now at b one other }
{
    if byte_or_zero(s, at) == u64::from(b) {
        one
    } else {
        other
    }
}

// The kind whose mnemonic a text starts with, if it starts with one.
fn kind_in(s: &[u8]) -> Kind
    ensures { result ≡ kind_in s.now }
{
    let vclmul = either(s, 8, b'x', Kind::VclmulVx, Kind::VclmulVv);
    let vclmulh = either(s, 9, b'x', Kind::VclmulhVx, Kind::VclmulhVv);
    let vghsh = either(s, 7, b's', Kind::VghshVs, Kind::VghshVv);
    let vgmul = either(s, 7, b's', Kind::VgmulVs, Kind::VgmulVv);
    let carryless = either(s, 6, b'h', vclmulh, vclmul);
    let ghash = either(s, 2, b'h', vghsh, vgmul);
    either(s, 1, b'c', carryless, ghash)
}

// A number of one or two digits.
fn number_at(s: &[u8], at: usize) -> Scanned
    requires { at ≤ 64 }
    ensures { result ≡ scanned s.now at }
{
    let first = byte_or_zero(s, at);
    let second = byte_or_zero(s, at + 1);
    if second / 16 == 3 {
        return Scanned {
            value: (first % 16 * 10 + second % 16) as u32,
            end: at + 2,
        };
    }
    Scanned {
        value: (first % 16) as u32,
        end: at + 1,
    }
}

// Where the first number stands in a text of this kind.
fn operands_at(k: Kind) -> usize
    ensures { result ≡ operands_at k }
{
    match k {
        Kind::VclmulVv | Kind::VclmulVx => 11,
        Kind::VclmulhVv | Kind::VclmulhVx => 12,
        Kind::VghshVv | Kind::VghshVs | Kind::VgmulVv | Kind::VgmulVs => 10,
    }
}

fn has_third(k: Kind) -> bool
    ensures { result ≡ has_third k }
{
    k.has_vs1_group() || !k.is_ghash()
}

fn vm_at(s: &[u8], at: usize) -> u32
    ensures { result ≡ vm_at s.now at }
{
    if at < s.len() { 0 } else { 1 }
}

// The fields, after vd and vs2. Where there is no third operand the vs1 field is 17.
fn fields_after(third: bool, s: &[u8], d: Scanned, m: Scanned) -> Fields
    requires { m.end ≤ 32 }
    ensures { result ≡ fields_after third s.now d m }
{
    let n = if third {
        number_at(s, m.end + 3)
    } else {
        Scanned {
            value: 17,
            end: m.end,
        }
    };
    Fields {
        vm: vm_at(s, n.end),
        vs2: m.value,
        vs1: n.value,
        vd: d.value,
    }
}

// The fields that a text of this kind has, if it is one.
fn fields_in(k: Kind, s: &[u8]) -> Fields
    ensures { result ≡ fields_in k s.now }
{
    let d = number_at(s, operands_at(k));
    let m = number_at(s, d.end + 3);
    fields_after(has_third(k), s, d, m)
}

// The reader: the word whose text this is.
pub fn read(text: &[u8]) -> Result<u32, Refusal>
    ensures { Reads text.now (answered result) }
{
    let kind = kind_in(text);
    let fields = fields_in(kind, text);
    let word = encode(Instruction { kind, fields })?;
    let mut buffer = [0u8; 32];
    let n = list(word, &mut buffer)?;
    if !same(text, &buffer[..n]) {
        return Err(Refusal::NotAWord);
    }
    Ok(word)
}
