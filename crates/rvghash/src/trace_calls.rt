// A record of a trace, and its replay.
ghost use Rattle.std.specs.Prelude.{◌≡◌, length};
ghost use Rattle.trace_record.specs.Record.{write_number, written_into};
ghost use Rattle.trace_replay.specs.Replay.{replayed, number_of, index_of};
ghost use Rattle.rvghash.specs.Call.{record_with};

use refusal::number_of;
use trace_policy::policy_of;
use trace_record::{Record, write_record};
use trace_replay::{answer_of, replay};

#[unsafe(no_mangle)]
pub extern "C" fn rvghash_put_record(
    word: u32,
    sew: u32,
    lmul: u32,
    tail_agnostic: bool,
    mask_agnostic: bool,
    answer: u32,
    vl: u32,
    vstart: u32,
    scalar: u64,
    record: &mut [u8],
) -> u32
    ensures { (result ≡ write_number (length «record».old) (record_with word sew lmul tail_agnostic mask_agnostic answer vl vstart scalar))
        × («record».new ≡ written_into «record».old (record_with word sew lmul tail_agnostic mask_agnostic answer vl vstart scalar)) }
{
    let r = Record {
        word,
        sew,
        lmul,
        answer,
        policy: policy_of(tail_agnostic, mask_agnostic),
        vl,
        vstart,
        scalar,
    };
    number_of(write_record(r, record))
}

#[unsafe(no_mangle)]
pub extern "C" fn rvghash_replay(vlen: u32, file: &mut [u8], trace: &[u8], index: &mut usize) -> u32
    ensures { (result ≡ number_of (replayed vlen file.old trace.now).answer)
        × (index.new ≡ index_of (replayed vlen file.old trace.now).answer)
        × (file.new ≡ (replayed vlen file.old trace.now).file) }
{
    let (number, place) = answer_of(replay(vlen, file, trace));
    *index = place;
    number
}
