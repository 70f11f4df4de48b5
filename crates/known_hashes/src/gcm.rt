// NIST's published GCM vectors, as records of H, the GHASH value, the lengths of A and C, A and C (data/gcm.bin).
ghost use Rattle.std.specs.Prelude.{◌≡◌, ◌≤◌, ◌<◌, length};
ghost use Rattle.known_hashes.specs.Gcm.{a_end, record_end};

use crate::hashes::{Way, hash_answer};
use crate::pieces::Mix;
use ghash_bytes::block_at;
use ghash_step::Path;
use known_bytes::place::counted_end;
use known_report::data_file::read;
use known_report::report::report;
use octets_slice::part_end;
use std::io;
use std::rt::Files;

// The bytes before A.
const HEAD: usize = 36;

// Where A ends in the record that starts at `at`.
fn a_end(s: &[u8], at: usize) -> usize
    requires { at < length s.now }
    ensures { (result ≡ a_end s.now at) × (at < result) × (result ≤ length s.now) }
{
    counted_end(s, part_end(at, HEAD, s.len()), at + 32, 2)
}

// Where the record ends, with C.
fn record_end(s: &[u8], at: usize) -> usize
    requires { at < length s.now }
    ensures { (result ≡ record_end s.now at) × (at < result) × (result ≤ length s.now) }
{
    counted_end(s, a_end(s, at), at + 34, 2)
}

// Counts a record that agrees. One that is cut short has another hash.
fn record(agreed: u64, way: Way, s: &[u8]) -> u64 {
    if s.len() < HEAD {
        return agreed;
    }
    let end = counted_end(s, HEAD, 32, 2);
    hash_answer(
        agreed,
        way,
        block_at(s, 0),
        &s[HEAD..end],
        &s[end..],
        0,
        block_at(s, 16),
    )
}

// How many records agree, and `agreed` more.
fn records(agreed: u64, way: Way, s: &[u8]) -> u64 {
    let mut n = agreed;
    let mut at: usize = 0;
    // A while: the step is the record's own length.
    while at < s.len() {
        let end = record_end(s, at);
        n = record(n, way, &s[at..end]);
        at = end;
    }
    n
}

fn whole(rt: &impl Print, s: &[u8]) -> io::Result<()> {
    report(
        rt,
        b"NIST GCM vectors, whole, plain path",
        records(0, Way::Whole(Path::Plain), s),
        450,
    )?;
    report(
        rt,
        b"NIST GCM vectors, whole, fast path",
        records(0, Way::Whole(Path::Fast), s),
        450,
    )
}

fn pieces(rt: &impl Print, s: &[u8]) -> io::Result<()> {
    let mut n = records(0, Way::Pieces(Mix::Plain, 1), s);
    n = records(n, Way::Pieces(Mix::Fast, 7), s);
    n = records(n, Way::Pieces(Mix::Turns, 16), s);
    n = records(n, Way::Pieces(Mix::Turns, 23), s);
    report(
        rt,
        b"NIST GCM vectors, in pieces, plain, fast and by turns",
        n,
        1800,
    )
}

fn all(rt: &impl Print, s: &[u8]) -> io::Result<()> {
    whole(rt, s)?;
    pieces(rt, s)
}

pub fn run(rt: &(impl Files + Print + Eprint)) -> io::Result<()> {
    // Fixed memory, as everywhere below: the file is read whole, and `n` bytes of it are there.
    let mut buffer = [0u8; 65536];
    let n = read(rt, b"gcm.bin", &mut buffer);
    all(rt, &buffer[..n])
}
