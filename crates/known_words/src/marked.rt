// Document 01's marked cases on words: K1 to K5 and K12.
ghost use Rattle.std.specs.Prelude.{◌≡◌, ◌↔◌, ◌≤◌, ◌/◌, IsTrue, ◌==◌, length};
ghost use Rattle.octets.specs.LittleEndian.{write_le};
ghost use Rattle.vector_refusal.specs.Refusal.{refusal_of};
ghost use Rattle.vector_execute.specs.Execute.{executed};
ghost use Rattle.known_words.specs.Marked.{one_element, elements, Becomes, k12};

use crate::call::BEFORE;
use known_bytes::pattern::fill;
use known_compare::tally::count;
use known_report::report::report_marked;
use octets_le::write_le;
use octets_slice::same;
use std::io;
use vector_execute::execute::execute;
use vector_kind::Kind;
use vector_registers::settings::Settings;
use vector_word::{Fields, Instruction, decode};

// vclmul.vv v1, v2, v3 and vclmulh.vv v1, v2, v3.
const VCLMUL: u32 = 0x3221A0D7;

const VCLMULH: u32 = 0x3621A0D7;

// Element 0 of the register whose bytes start at `at`.
fn put_element(file: &mut [u8], at: usize, sew: u32, element: u64)
    requires { sew ≤ 64 }
    ensures { file.new ≡ write_le (sew / 8) file.old at element }
{
    write_le(file, at, (sew / 8) as usize, element);
}

// A file with these elements in v2 and v3.
fn put_elements(file: &mut [u8], sew: u32, a: u64, b: u64)
    requires { sew ≤ 64 }
    ensures { file.new ≡ elements (length file.old) sew a b }
{
    fill(BEFORE, file);
    put_element(file, 32, sew, a);
    put_element(file, 48, sew, b);
}

// Executes a word on one element; whether it is done.
fn executes(word: u32, sew: u32, file: &mut [u8]) -> bool
    ensures { (result ≡ (refusal_of (length file.old) word (one_element sew) == 0))
        × (file.new ≡ executed word (one_element sew) 0 file.old) }
{
    let mut s = Settings {
        vlen: 128,
        sew,
        lmul: 1,
        vta: false,
        vma: false,
        vl: 1,
        vstart: 0,
    };
    execute(word, &mut s, 0, file).is_ok()
}

// A word on v1, v2 and v3 makes this of element 0 of v1 and changes nothing else, where that of v2 is a, and that of v3 b.
fn element_becomes(word: u32, sew: u32, a: u64, b: u64, element: u64) -> bool
    requires { sew ≤ 64 }
    ensures { IsTrue result ↔ Becomes word sew a b element }
{
    let mut file = [0u8; 512];
    let mut expected = [0u8; 512];
    put_elements(&mut file, sew, a, b);
    put_elements(&mut expected, sew, a, b);
    put_element(&mut expected, 16, sew, element);
    let ok = executes(word, sew, &mut file);
    ok & same(&file, &expected)
}

// Elements a by b.
fn carryless(
    rt: &impl Print,
    k: u64,
    sew: u32,
    a: u64,
    b: u64,
    low: u64,
    high: u64,
) -> io::Result<()>
    requires { sew ≤ 64 }
{
    let n = count(0, element_becomes(VCLMUL, sew, a, b, low));
    report_marked(
        rt,
        k,
        count(n, element_becomes(VCLMULH, sew, a, b, high)),
        2,
    )
}

fn elements(rt: &impl Print) -> io::Result<()> {
    carryless(rt, 1, 8, 0x03, 0x03, 0x05, 0x00)?;
    carryless(rt, 2, 8, 0xFF, 0xFF, 0x55, 0x55)?;
    carryless(rt, 3, 8, 0x80, 0x80, 0x00, 0x40)?;
    carryless(rt, 4, 8, 0x80, 0x02, 0x00, 0x01)?;
    carryless(rt, 5, 16, 0xFFFF, 0xFFFF, 0x5555, 0x5555)
}

// vghsh.vv with vd 4, vs2 8, vs1 12.
fn is_k12(i: Option<Instruction>) -> bool
    ensures { IsTrue result ↔ (i ≡ k12) }
{
    let k12 = Instruction {
        kind: Kind::VghshVv,
        fields: Fields {
            vm: 1,
            vs2: 8,
            vs1: 12,
            vd: 4,
        },
    };
    i == Some(k12)
}

fn word(rt: &impl Print) -> io::Result<()> {
    report_marked(rt, 12, count(0, is_k12(decode(0xB2862277))), 1)
}

pub fn run(rt: &impl Print) -> io::Result<()> {
    elements(rt)?;
    word(rt)
}
