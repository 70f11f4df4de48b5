// The form of a trace that is replayed: whole records, and policy bytes 0 to 3. Document 02, Asks 3 and 5.
#![tactic(auto)]

ghost use Rattle.std.specs.Prelude.{◌≡◌};
ghost use Rattle.trace_form.specs.Form.{well_formed};

use octets_le::read_le;
use trace_record::RECORD_BYTES;

// Whether the length is a multiple of 24, and each record's policy byte is at most 3.
pub fn well_formed(trace: &[u8]) -> bool
    ensures { result ≡ well_formed trace.now }
{
    trace.len() % RECORD_BYTES == 0
        && (0..trace.len() / RECORD_BYTES).all(|i| read_le(trace, RECORD_BYTES * i + 7, 1) <= 3)
}
