// The records of data/words.bin: each call is done on a register file that is filled with a pattern before it; afterwards all bytes are
// compared.
ghost use Rattle.std.specs.Prelude.{cond, ◌≡◌, ◌≢◌, ◌↔◌, ◌≤◌, ◌<◌, IsTrue, eqb, length};
ghost use Rattle.known_words.specs.Call.{number_at, record_end, answers_as, after, expected, Agrees};

use crate::call::{BEFORE, HEAD, length_at, number_at, settings_at};
use crate::groups;
use known_bytes::pattern::fill;
use known_bytes::place::counted_end;
use known_compare::tally::count;
use known_report::data_file::read;
use known_report::report::report;
use octets_le::read_le;
use octets_slice::{part_end, put, same};
use refusal::number_of;
use std::io;
use std::rt::Files;
use vector_execute::execute::execute;

// The group of the records that ask for a register group; the data file numbers its groups.
const GROUPS: u32 = 9;

// The vstart that goes with a number.
fn vstart_of(number: u32, vstart: u32) -> u32
    ensures { result ≡ cond (eqb number 0) 0 vstart }
{
    if number == 0 { 0 } else { vstart }
}

// Executes a record's word; whether the number and vstart are the record's.
fn executes(s: &[u8], file: &mut [u8]) -> bool
    ensures { (result ≡ answers_as s.now (length file.old))
        × (file.new ≡ after s.now file.old) }
{
    let mut at = settings_at(s);
    let number = number_at(s, 40);
    let vstart = vstart_of(number, at.vstart);
    let answer = execute(number_at(s, 4), &mut at, read_le(s, 28, 8), file);
    (number_of(answer) == number) & (at.vstart == vstart)
}

// Does the call of a record.
fn does(s: &[u8], changed: &[u8], file: &mut [u8]) -> bool
    ensures { (number_at s.now 0 ≢ 9)
        → (result ≡ answers_as s.now (length file.old))
        × (file.new ≡ after s.now file.old) }
{
    if number_at(s, 0) == GROUPS {
        return groups::written(s, changed, file);
    }
    executes(s, file)
}

// The file as it should be afterwards: as before, but for the bytes that change.
fn expect(s: &[u8], changed: &[u8], file: &mut [u8])
    ensures { file.new ≡ expected s.now changed.now (length file.old) }
{
    fill(BEFORE, file);
    put(file, length_at(s, 44), changed);
}

// The call of a record answers as it should, and leaves all of the file as it should.
fn leaves(s: &[u8], changed: &[u8], file: &mut [u8], wanted: &mut [u8]) -> bool
    requires { length wanted.old ≡ length file.old }
    ensures { (number_at s.now 0 ≢ 9)
        → (IsTrue result ↔ Agrees s.now changed.now (length file.old)) }
{
    let file_len = length_at(s, 36);
    if file.len() < file_len {
        return false;
    }
    fill(BEFORE, file);
    expect(s, changed, wanted);
    let ok = does(s, changed, &mut file[..file_len]);
    ok & same(file, wanted)
}

// The same on a file of its own; of a register group nothing is said here.
fn agrees(s: &[u8], changed: &[u8]) -> bool
    ensures { (number_at s.now 0 ≢ 9)
        → (IsTrue result ↔ Agrees s.now changed.now 2049) }
{
    let mut file = [0u8; 2049];
    let mut wanted = [0u8; 2049];
    leaves(s, changed, &mut file, &mut wanted)
}

// Counts a record that is one of the group and agrees.
fn record(agreed: u64, group: u32, s: &[u8]) -> u64 {
    if number_at(s, 0) != group {
        return agreed;
    }
    if s.len() < HEAD {
        return agreed;
    }
    count(agreed, agrees(s, &s[HEAD..]))
}

// Where the record that starts at `at` ends.
fn record_end(s: &[u8], at: usize) -> usize
    requires { at < length s.now }
    ensures { (result ≡ record_end s.now at) × (at < result) × (result ≤ length s.now) }
{
    counted_end(s, part_end(at, HEAD, s.len()), at + 48, 4)
}

// How many records of a group agree.
fn records(group: u32, s: &[u8]) -> u64 {
    let mut n: u64 = 0;
    let mut at: usize = 0;
    // A while: the step is the record's own length.
    while at < s.len() {
        let end = record_end(s, at);
        n = record(n, group, &s[at..end]);
        at = end;
    }
    n
}

fn line(rt: &impl Print, name: &[u8], group: u32, tried: u64, s: &[u8]) -> io::Result<()> {
    report(rt, name, records(group, s), tried)
}

fn refusals(rt: &impl Print, s: &[u8]) -> io::Result<()> {
    line(rt, b"vl = VLMAX and VLMAX + 1", 0, 9, s)?;
    line(rt, b"vl and vstart of a GHASH word", 1, 36, s)?;
    line(rt, b"Register 31 with LMUL 1 and 2", 2, 8, s)?;
    line(rt, b"VLEN, SEW, LMUL and the length of the file", 3, 28, s)?;
    line(rt, b"Numbers 2, 7 and 8", 4, 61, s)?;
    line(rt, b"The smallest of several numbers", 5, 8, s)
}

fn values(rt: &impl Print, s: &[u8]) -> io::Result<()> {
    line(rt, b"Carry-less words, with and without a mask", 6, 36, s)?;
    line(rt, b"Scalars of .vx words", 7, 32, s)?;
    line(rt, b"GHASH words", 8, 28, s)?;
    line(rt, b"Register groups, asked for and written", GROUPS, 21, s)?;
    line(rt, b"Tail and mask policies", 10, 87, s)
}

fn all(rt: &impl Print, s: &[u8]) -> io::Result<()> {
    refusals(rt, s)?;
    values(rt, s)
}

pub fn run(rt: &(impl Files + Print + Eprint)) -> io::Result<()> {
    // Fixed memory, as everywhere below: the file is read whole, and `n` bytes of it are there.
    let mut buffer = [0u8; 65536];
    let n = read(rt, b"words.bin", &mut buffer);
    all(rt, &buffer[..n])
}
