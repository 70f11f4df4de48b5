// Both sides of the limit of 1,048,576 bytes, whole and running. data/limits.bin has the hashes: H and GHASH for A alone,
// C alone, and both, each of 1,048,576 bytes.
use crate::hashes::{Way, hash_answer};
use crate::pieces::Mix;
use ghash_block::block::Block;
use ghash_bytes::block_at;
use ghash_state::LIMIT;
use ghash_step::Path;
use known_bytes::pattern::{Pattern, fill};
use known_report::data_file::read;
use known_report::report::report;
use std::io;
use std::rt::Files;

const OF_A: Pattern = Pattern(3, 7, 251);

const OF_C: Pattern = Pattern(5, 11, 253);

// A message of the limit's length, whole on either path and in pieces. The key stands in s from `key` on, the hash from `hash` on.
fn at_limit(agreed: u64, s: &[u8], key: usize, hash: usize, a: &[u8], c: &[u8]) -> u64 {
    let h = block_at(s, key);
    let y = block_at(s, hash);
    let mut n = hash_answer(agreed, Way::Whole(Path::Plain), h, a, c, 0, y);
    n = hash_answer(n, Way::Whole(Path::Fast), h, a, c, 0, y);
    hash_answer(n, Way::Pieces(Mix::Turns, 65521), h, a, c, 0, y)
}

// The longest A, the longest C, and both.
fn longest(rt: &impl Print, s: &[u8], none: &[u8], a: &[u8], c: &[u8]) -> io::Result<()> {
    let mut n = at_limit(0, s, 0, 16, a, none);
    n = at_limit(n, s, 32, 48, none, c);
    n = at_limit(n, s, 64, 80, a, c);
    report(rt, b"1,048,576 bytes of A, of C and of both", n, 9)
}

// One byte more, whole: 11 and the zero block.
fn past_limit(agreed: u64, h: Block, a: &[u8], c: &[u8]) -> u64 {
    let n = hash_answer(agreed, Way::Whole(Path::Plain), h, a, c, 11, Block::ZERO);
    hash_answer(n, Way::Whole(Path::Fast), h, a, c, 11, Block::ZERO)
}

fn whole(rt: &impl Print, s: &[u8], none: &[u8], a: &[u8], c: &[u8]) -> io::Result<()> {
    let h = block_at(s, 0);
    let n = past_limit(0, h, a, none);
    report(
        rt,
        b"1,048,577 bytes refused, whole",
        past_limit(n, h, none, c),
        4,
    )
}

// One byte more, running: the piece that has it is refused with 11, and the hash is that of the bytes before it.
fn fed_past_limit(agreed: u64, s: &[u8], key: usize, hash: usize, a: &[u8], c: &[u8]) -> u64 {
    let h = block_at(s, key);
    let y = block_at(s, hash);
    let mut n = hash_answer(agreed, Way::Pieces(Mix::Plain, LIMIT), h, a, c, 11, y);
    n = hash_answer(n, Way::Pieces(Mix::Fast, LIMIT), h, a, c, 11, y);
    hash_answer(n, Way::Pieces(Mix::Fast, 65536), h, a, c, 11, y)
}

fn running(rt: &impl Print, s: &[u8], none: &[u8], a: &[u8], c: &[u8]) -> io::Result<()> {
    let n = fed_past_limit(0, s, 0, 16, a, none);
    report(
        rt,
        b"1,048,577 bytes refused, running",
        fed_past_limit(n, s, 32, 48, none, c),
        6,
    )
}

// A and C have one byte more than the limit.
fn both_sides(rt: &impl Print, limit: usize, s: &[u8], a: &[u8], c: &[u8]) -> io::Result<()> {
    if a.len() < limit {
        return Ok(());
    }
    if c.len() < limit {
        return Ok(());
    }
    let none = [0u8; 0];
    longest(rt, s, &none, &a[0..limit], &c[0..limit])?;
    whole(rt, s, &none, a, c)?;
    running(rt, s, &none, a, c)
}

fn filled(
    rt: &impl Print,
    s: &[u8],
    a: &mut [u8; 1048577],
    c: &mut [u8; 1048577],
) -> io::Result<()> {
    fill(OF_A, a);
    fill(OF_C, c);
    both_sides(rt, LIMIT, s, a, c)
}

fn all(rt: &impl Print, s: &[u8]) -> io::Result<()> {
    let mut a = [0u8; 1048577];
    let mut c = [0u8; 1048577];
    filled(rt, s, &mut a, &mut c)
}

pub fn run(rt: &(impl Files + Print + Eprint)) -> io::Result<()> {
    // Fixed memory, as everywhere below: the file is read whole, and `n` bytes of it are there.
    let mut buffer = [0u8; 96];
    let n = read(rt, b"limits.bin", &mut buffer);
    all(rt, &buffer[..n])
}
