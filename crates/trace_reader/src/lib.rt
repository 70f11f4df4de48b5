// A reader of a trace, which keeps hold of the lent trace and its place in it: document 01, "The form each place takes". Each
// function over the struct leaves the work to a function on slice and number.
#![tactic(auto)]

ghost use Rattle.std.specs.Prelude.{◌≡◌};
ghost use Rattle.std.specs.Iterator.{YieldsFirst, item_count};
ghost use Rattle.trace_reader.specs.Reader.{whole_at, next_at, place_after, records_left};

use trace_record::{RECORD_BYTES, Record, record_at};

// The trace, and the place of the next record in it.
#[derive(Clone, Copy)]
pub struct Reader<'a> {
    pub trace: &'a [u8],
    pub at: usize,
}

// Whether a whole record stands at a place, in a trace of this length: a rest of under 24 bytes is no record.
fn whole_at(len: usize, at: usize) -> bool
    ensures { result ≡ whole_at «len» at }
{
    at <= len && RECORD_BYTES <= len - at
}

// What stands at a place: a whole record, or none at the end.
pub fn next_at(trace: &[u8], at: usize) -> Option<Record>
    ensures { result ≡ next_at trace.now at }
{
    if whole_at(trace.len(), at) {
        Some(record_at(trace, at))
    } else {
        None
    }
}

// The place after a call there: that of the next record, and at the end the same.
pub fn place_after(trace: &[u8], at: usize) -> usize
    ensures { result ≡ place_after trace.now at }
{
    if whole_at(trace.len(), at) {
        at + RECORD_BYTES
    } else {
        at
    }
}

// A reader at the start of a trace.
pub fn new_reader<'a>(trace: &'a [u8]) -> Reader<'a>
    ensures { (result.trace ≡ trace.entry) × (result.at ≡ 0) }
{
    Reader { trace, at: 0 }
}

// Gives the record at the reader's place, and moves on to the next one; at the end it gives none, and stays.
pub fn next_record<'s, 'a>(r: &'s mut Reader<'a>) -> Option<Record>
    ensures { (result ≡ next_at r.old.trace.now r.old.at)
        × (r.new.trace ≡ r.old.trace)
        × (r.new.at ≡ place_after r.old.trace.now r.old.at) }
{
    let given = next_at(r.trace, r.at);
    r.at = place_after(r.trace, r.at);
    given
}

// As an iterator it gives the whole records from its place on, in order.
impl<'a> Iterator for Reader<'a> {
    type Item = Record;

    ghost next_gives = { YieldsFirst (λ r. records_left r.trace.now r.at) };

    ghost remaining = { item_count (λ r. records_left r.trace.now r.at) };

    fn next(&mut self) -> Option<Record> {
        next_record(self)
    }
}
