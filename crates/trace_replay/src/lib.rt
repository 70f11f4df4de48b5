// Replay of a trace on a lent register file: document 02, Asks 3 and 5.
#![tactic(auto)]

ghost use Rattle.std.specs.Prelude.{◌≡◌};
ghost use Rattle.trace_replay.specs.Replay.{settings_of, agrees, after_record, replayed, number_of, index_of};

use refusal::{Refusal, number_of};
use trace_form::well_formed;
use trace_record::{RECORD_BYTES, Record, record_at};
use vector_execute::execute::execute;
use vector_refusal::refusal;
use vector_registers::settings::Settings;

// Why a replay is not done: the answer of the record with this index, the first such, is not ours; or the trace is refused, and nothing ran.
#[derive(Clone, Copy, PartialEq, Eq)]
pub enum Stopped {
    Differs(usize),
    Refused,
}

// The settings of a record's call: its vstart is the record's own.
fn settings_of(vlen: u32, r: Record) -> Settings
    ensures { result ≡ settings_of vlen r }
{
    Settings {
        vlen,
        sew: r.sew,
        lmul: r.lmul,
        vta: r.policy % 2 == 1,
        vma: r.policy / 2 % 2 == 1,
        vl: r.vl,
        vstart: r.vstart,
    }
}

// Does a record's call, and says that its answer is ours. If it is not, nothing is done: the refusal is known before any write.
fn replay_record(vlen: u32, r: Record, file: &mut [u8]) -> bool
    ensures { (result ≡ agrees vlen r file.old) × (file.new ≡ after_record vlen r file.old) }
{
    let mut s = settings_of(vlen, r);
    let ours = number_of(refusal(file.len(), r.word, s));
    if ours != r.answer {
        return false;
    }
    let _ = execute(r.word, &mut s, r.scalar, file);
    true
}

// Replays a trace, up to the first record whose answer is not ours, and gives the number of records.
pub fn replay(vlen: u32, file: &mut [u8], trace: &[u8]) -> Result<usize, Stopped>
    ensures { (result ≡ (replayed vlen file.old trace.now).answer)
        × (file.new ≡ (replayed vlen file.old trace.now).file) }
{
    if !well_formed(trace) {
        return Err(Stopped::Refused);
    }
    let count = trace.len() / RECORD_BYTES;
    for i in 0..count {
        if !replay_record(vlen, record_at(trace, RECORD_BYTES * i), file) {
            return Err(Stopped::Differs(i));
        }
    }
    Ok(count)
}

// The number and the index that C gets: the index of the record that differs, the number of records when done, 0 on a refusal. A
// difference is 256, which is no refusal's number and no record's answer.
pub fn answer_of(r: Result<usize, Stopped>) -> (u32, usize)
    ensures { (result.0 ≡ number_of r) × (result.1 ≡ index_of r) }
{
    match r {
        Ok(count) => (0, count),
        Err(Stopped::Differs(i)) => (256, i),
        Err(Stopped::Refused) => (Refusal::BadTrace.number(), 0),
    }
}
