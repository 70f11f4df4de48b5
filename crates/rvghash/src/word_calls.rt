// Words written from their fields, taken apart, listed and read.
ghost use Rattle.std.specs.Prelude.{◌≡◌};
ghost use Rattle.vector_word.specs.Word.{decode};
ghost use Rattle.vector_numbers.specs.Numbers.{encoded_numbered, decoded_numbered};
ghost use Rattle.vector_listing.specs.Listing.{listed_into};
ghost use Rattle.vector_reader.specs.Reading.{Reads};
ghost use Rattle.rvghash.specs.Call.{fields_with, listing, answer};

use refusal::number_of;
use vector_listing::list;
use vector_numbers::{decode_numbered, encode_numbered};
use vector_reader::read;
use vector_word::Fields;

// What stands beside the number of a word that is not decoded.
const NO_FIELDS: Fields = Fields {
    vm: 0,
    vs2: 0,
    vs1: 0,
    vd: 0,
};

#[unsafe(no_mangle)]
pub extern "C" fn rvghash_encode(
    kind: u32,
    vm: u32,
    vs2: u32,
    vs1: u32,
    vd: u32,
    word: &mut u32,
) -> u32
    ensures { (result ≡ (encoded_numbered kind (fields_with vm vs2 vs1 vd)).number)
        × (word.new ≡ (encoded_numbered kind (fields_with vm vs2 vs1 vd)).word) }
{
    let answer = encode_numbered(kind, Fields { vm, vs2, vs1, vd });
    *word = answer.unwrap_or(0);
    number_of(answer)
}

#[unsafe(no_mangle)]
pub extern "C" fn rvghash_decode(
    word: u32,
    kind: &mut u32,
    vm: &mut u32,
    vs2: &mut u32,
    vs1: &mut u32,
    vd: &mut u32,
) -> u32
    ensures { (result ≡ (decoded_numbered word).number)
        × (kind.new ≡ (decoded_numbered word).kind)
        × (vm.new ≡ (decoded_numbered word).fields.vm)
        × (vs2.new ≡ (decoded_numbered word).fields.vs2)
        × (vs1.new ≡ (decoded_numbered word).fields.vs1)
        × (vd.new ≡ (decoded_numbered word).fields.vd) }
{
    let answer = decode_numbered(word);
    let (k, f) = answer.unwrap_or((0, NO_FIELDS));
    *kind = k;
    *vm = f.vm;
    *vs2 = f.vs2;
    *vs1 = f.vs1;
    *vd = f.vd;
    number_of(answer)
}

// The word's text, and its length.
#[unsafe(no_mangle)]
pub extern "C" fn rvghash_disassemble(word: u32, text: &mut [u8], length: &mut usize) -> u32
    ensures { (result ≡ (listing text.old word).number)
        × (length.new ≡ (listing text.old word).length)
        × (text.new ≡ listed_into text.old (decode word)) }
{
    let answer = list(word, text);
    *length = answer.unwrap_or(0);
    number_of(answer)
}

// The word whose text this is.
#[unsafe(no_mangle)]
pub extern "C" fn rvghash_assemble(text: &[u8], word: &mut u32) -> u32
    ensures { Reads text.now (answer result word.new) }
{
    let taken = read(text);
    *word = taken.unwrap_or(0);
    number_of(taken)
}
