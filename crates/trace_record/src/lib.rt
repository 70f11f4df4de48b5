// A record of a trace: one call of the executor, and its answer. Document 02, Asks 3 and 5.
#![tactic(auto)]

ghost use Rattle.std.specs.Prelude.{◌≡◌, ◌+◌, ◌≤◌, length};
ghost use Rattle.std.proofs.lemmas.List.Edits.{sets};
ghost use Rattle.octets.specs.LittleEndian.{read_le};
ghost use Rattle.refusal.specs.Refusal.{number_of};
ghost use Rattle.trace_record.specs.Record.{record_at, record_bytes, too_large, write_number, written_into};

use octets_le::{read_le, write_le};
use octets_slice::put;
use refusal::Refusal;

// How many bytes a record has.
pub const RECORD_BYTES: usize = 24;

// The word, the settings without VLEN, the scalar and the answer of a call. `policy` is the policy byte; vstart is the one before the call.
// Answer and policy are numbers: a trace may have bytes that no refusal and no policies have.
#[derive(Clone, Copy)]
pub struct Record {
    pub word: u32,
    pub sew: u32,
    pub lmul: u32,
    pub answer: u32,
    pub policy: u32,
    pub vl: u32,
    pub vstart: u32,
    pub scalar: u64,
}

// ---- read

// The number in the n bytes at a place of the record that starts at `at`. Bytes past the end count as zeros.
fn number_at(trace: &[u8], at: usize, place: usize, n: usize) -> u64
    requires { (place ≤ 24) × (n ≤ 8) }
    ensures { result ≡ read_le trace.now (at + place) n }
{
    if trace.len() <= at {
        return 0;
    }
    read_le(trace, at + place, n)
}

// The same for a number of at most 4 bytes.
fn short_at(trace: &[u8], at: usize, place: usize, n: usize) -> u32
    requires { (place ≤ 24) × (n ≤ 4) }
    ensures { result ≡ read_le trace.now (at + place) n }
{
    number_at(trace, at, place, n) as u32
}

// The record in the 24 bytes from `at` on.
pub fn record_at(trace: &[u8], at: usize) -> Record
    ensures { result ≡ record_at trace.now at }
{
    Record {
        word: short_at(trace, at, 0, 4),
        sew: short_at(trace, at, 4, 1),
        lmul: short_at(trace, at, 5, 1),
        answer: short_at(trace, at, 6, 1),
        policy: short_at(trace, at, 7, 1),
        vl: short_at(trace, at, 8, 4),
        vstart: short_at(trace, at, 12, 4),
        scalar: number_at(trace, at, 16, 8),
    }
}

// ---- written

// The record's bytes. Of SEW, LMUL, the answer and the policy byte the low byte stands there.
fn record_bytes(r: Record) -> [u8; RECORD_BYTES]
    ensures { result ≡ record_bytes r }
{
    let mut b = [0u8; RECORD_BYTES];
    write_le(&mut b, 0, 4, r.word as u64);
    write_le(&mut b, 4, 1, r.sew as u64);
    write_le(&mut b, 5, 1, r.lmul as u64);
    write_le(&mut b, 6, 1, r.answer as u64);
    write_le(&mut b, 7, 1, r.policy as u64);
    write_le(&mut b, 8, 4, r.vl as u64);
    write_le(&mut b, 12, 4, r.vstart as u64);
    write_le(&mut b, 16, 8, r.scalar);
    b
}

// Puts the record's bytes from `at` on. Those that come to lie past the end are left out.
pub fn put_record(r: Record, s: &mut [u8], at: usize)
    ensures { s.new ≡ sets s.old at (record_bytes r) }
{
    put(s, at, &record_bytes(r));
}

// SEW, LMUL or the answer is over 255, or the policy byte over 3.
fn too_large(r: Record) -> bool
    ensures { result ≡ too_large r }
{
    r.sew > 255 || r.lmul > 255 || r.answer > 255 || r.policy > 3
}

// Writes the record over a slice of 24 bytes. 14: another length, or a number that has no room; nothing is then written.
pub fn write_record(r: Record, s: &mut [u8]) -> Result<(), Refusal>
    ensures { (number_of result ≡ write_number (length s.old) r) × (s.new ≡ written_into s.old r) }
{
    if s.len() != RECORD_BYTES || too_large(r) {
        return Err(Refusal::BadTrace);
    }
    put_record(r, s, 0);
    Ok(())
}
