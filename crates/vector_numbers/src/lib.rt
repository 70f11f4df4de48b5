// The writer and the decoder with the kinds as numbers, for callers in C.
#![tactic(auto)]

ghost use Rattle.std.specs.Prelude.{◌≡◌};
ghost use Rattle.vector_word.specs.Writer.{answered};
ghost use Rattle.vector_numbers.specs.Numbers.{encoded_numbered, decoded_numbered, decoded};

use refusal::Refusal;
use vector_kind::Kind;
use vector_word::{Fields, Instruction, decode, encode};

// The writer, by the kind's number: one that no kind has is refused.
pub fn encode_numbered(kind: u32, fields: Fields) -> Result<u32, Refusal>
    ensures { answered result ≡ encoded_numbered kind fields }
{
    let kind = Kind::try_from(kind)?;
    encode(Instruction { kind, fields })
}

// The decoder, with the kind's number.
pub fn decode_numbered(word: u32) -> Result<(u32, Fields), Refusal>
    ensures { decoded result ≡ decoded_numbered word }
{
    let i = decode(word).ok_or(Refusal::NotAWord)?;
    Ok((u32::from(i.kind), i.fields))
}
