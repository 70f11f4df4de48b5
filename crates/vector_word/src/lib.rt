// The eight words and their fields: document 01, "The eight words".
#![tactic(auto)]

ghost use Rattle.std.specs.Prelude.{◌≡◌};
ghost use Rattle.std.specs.List.{find};
ghost use Rattle.vector_kind.specs.Kinds.{kinds};
ghost use Rattle.vector_word.specs.Word.{row_with, row, allows, is_row, fields_of, decode};
ghost use Rattle.vector_word.specs.Writer.{admits, word_of, Narrow, encoded, answered};

use refusal::Refusal;
use vector_kind::Kind;

// The fields that a word of any kind has; vs1 is rs1 in a .vx word. Numbers of any size: the writer refuses those that no word has.
#[derive(Clone, Copy, PartialEq, Eq)]
pub struct Fields {
    pub vm: u32,
    pub vs2: u32,
    pub vs1: u32,
    pub vd: u32,
}

// A word of one of the eight kinds: its kind and its fields.
#[derive(Clone, Copy, PartialEq, Eq)]
pub struct Instruction {
    pub kind: Kind,
    pub fields: Fields,
}

// A row of the table, a field for each column. Where it gives no vm or vs1, any is allowed.
#[derive(Clone, Copy, PartialEq, Eq)]
pub struct Row {
    pub funct6: u32,
    pub vm: Option<u32>,
    pub vs1: Option<u32>,
    pub funct3: u32,
    pub opcode: u32,
}

impl Row {
    // funct6, vm, vs1 field, funct3, opcode.
    fn new(funct6: u32, vm: Option<u32>, vs1: Option<u32>, funct3: u32, opcode: u32) -> Self
        ensures { result ≡ row_with funct6 vm vs1 funct3 opcode }
    {
        Self {
            funct6,
            vm,
            vs1,
            funct3,
            opcode,
        }
    }

    // The kind's row of the table.
    fn of(k: Kind) -> Self
        ensures { result ≡ row k }
    {
        match k {
            Kind::VclmulVv => Row::new(0b001100, None, None, 0b010, 0b1010111),
            Kind::VclmulVx => Row::new(0b001100, None, None, 0b110, 0b1010111),
            Kind::VclmulhVv => Row::new(0b001101, None, None, 0b010, 0b1010111),
            Kind::VclmulhVx => Row::new(0b001101, None, None, 0b110, 0b1010111),
            Kind::VghshVv => Row::new(0b101100, Some(1), None, 0b010, 0b1110111),
            Kind::VghshVs => Row::new(0b100011, Some(1), None, 0b010, 0b1110111),
            Kind::VgmulVv => Row::new(0b101000, Some(1), Some(0b10001), 0b010, 0b1110111),
            Kind::VgmulVs => Row::new(0b101001, Some(1), Some(0b10001), 0b010, 0b1110111),
        }
    }

    // The word has the row's fields.
    fn is_of(self, word: u32) -> bool
        ensures { result ≡ is_row self word }
    {
        // By itself, so that the rows' tests compile to one switch: as the first of the tests below, decoding took up to twice as long.
        if (word >> 26) % 64 != self.funct6 {
            return false;
        }
        let fields = fields_of(word);
        allows(self.vm, fields.vm)
            && allows(self.vs1, fields.vs1)
            && (word >> 12) % 8 == self.funct3
            && word % 128 == self.opcode
    }

    // Whether a word with this row can have these fields.
    fn admits(self, f: Fields) -> bool
        ensures { result ≡ admits self f }
    {
        f.vm < 2
            && f.vs2 < 32
            && f.vs1 < 32
            && f.vd < 32
            && allows(self.vm, f.vm)
            && allows(self.vs1, f.vs1)
    }

    // The row's and the given fields, each at its place.
    fn word_of(self, f: Fields) -> u32
        requires { Narrow self f }
        ensures { result ≡ word_of self f }
    {
        self.funct6 * 0x400_0000
            + f.vm * 0x200_0000
            + f.vs2 * 0x10_0000
            + f.vs1 * 0x8000
            + self.funct3 * 0x1000
            + f.vd * 0x80
            + self.opcode
    }
}

// A field's value is one that the row allows.
fn allows(given: Option<u32>, value: u32) -> bool
    ensures { result ≡ allows given value }
{
    given.is_none_or(|n| value == n)
}

// The fields of a word.
pub fn fields_of(word: u32) -> Fields
    ensures { result ≡ fields_of word }
{
    Fields {
        vm: (word >> 25) % 2,
        vs2: (word >> 20) % 32,
        vs1: (word >> 15) % 32,
        vd: (word >> 7) % 32,
    }
}

// The first kind whose row the word has.
fn kind_of(word: u32) -> Option<Kind>
    ensures { result ≡ find (λ k. is_row (row k) word) kinds }
{
    Kind::ALL.iter().copied().find(|k| Row::of(*k).is_of(word))
}

// The kind of a word and its fields, by the first row that the word has.
#[tactic(auto, using(crate::proofs::Rows::decode_found))]
pub fn decode(word: u32) -> Option<Instruction>
    ensures { result ≡ decode word }
{
    let kind = kind_of(word)?;
    Some(Instruction {
        kind,
        fields: fields_of(word),
    })
}

// The writer: the word of this kind with these fields.
pub fn encode(i: Instruction) -> Result<u32, Refusal>
    ensures { answered result ≡ encoded i.kind i.fields }
{
    let r = Row::of(i.kind);
    if !r.admits(i.fields) {
        return Err(Refusal::NotAWord);
    }
    Ok(r.word_of(i.fields))
}
