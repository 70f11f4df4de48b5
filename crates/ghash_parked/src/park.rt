// Parking a running hash into a lent buffer, and reading a record back.
ghost use Rattle.std.specs.Prelude.{◌≡◌, ◌≤◌, length};
ghost use Rattle.refusal.specs.Refusal.{number_of};
ghost use Rattle.ghash_state.specs.State.{view, spare_zeros};
ghost use Rattle.ghash_parked.specs.Layout.{counts4, size};
ghost use Rattle.ghash_parked.specs.Record.{record_bytes, state_at};
ghost use Rattle.ghash_parked.specs.Park.{park_number, parked_into, Reads, unparked};

use crate::layout::{Layout, layout_of};
use ghash_bytes::{block_at, put_block};
use ghash_state::{Part, Running, zeros_from};
use octets_le::{read_le, write_le};
use octets_slice::put;
use refusal::Refusal;

// How many bytes a record has that is written.
pub const PARKED_BYTES: usize = 48;

// ---- parked

// The record of a running hash. Its spare bytes are zeros, whatever those of the struct are.
fn record_bytes(state: Running) -> [u8; PARKED_BYTES]
    ensures { result ≡ record_bytes counts4 (view state) }
{
    let l = Layout::COUNTS_OF_4;
    let n = usize::from(l.count_bytes);
    let mut b = [0; PARKED_BYTES];
    put_block(&mut b, 0, state.y);
    put(&mut b, Layout::AT_BLOCK, &state.open_block);
    write_le(&mut b, Layout::AT_COUNT_A, n, u64::from(state.a_count));
    write_le(&mut b, l.at_count_c(), n, u64::from(state.c_count));
    b[l.at_phase()] = state.phase;
    b
}

// Parks a running hash into a buffer of 48 bytes. 10: it is malformed; 15: the buffer has another length. Nothing is then
// written.
pub fn park(state: Running, buffer: &mut [u8]) -> Result<(), Refusal>
    ensures { (number_of result ≡ park_number (view state) (length buffer.old))
        × (buffer.new ≡ parked_into (view state) buffer.old) }
{
    if state.is_malformed() {
        return Err(Refusal::BadRunning);
    }
    if buffer.len() != PARKED_BYTES {
        return Err(Refusal::BadParked);
    }
    buffer.copy_from_slice(&record_bytes(state));
    Ok(())
}

// ---- read back

// The running hash whose fields a record holds, malformed or not.
fn state_at(l: Layout, bytes: &[u8]) -> Running
    requires { (l.count_bytes ≤ 4) × (length bytes.now ≡ size l) }
    ensures { (view result ≡ state_at l bytes.now) × (result.spare ≡ spare_zeros) }
{
    let n = usize::from(l.count_bytes);
    let mut part = Part::none_open(block_at(bytes, 0));
    let open_block = &bytes[Layout::AT_BLOCK..Layout::AT_COUNT_A];
    part.bytes.copy_from_slice(open_block);
    let a_count = read_le(bytes, Layout::AT_COUNT_A, n) as u32;
    let c_count = read_le(bytes, l.at_count_c(), n) as u32;
    Running::of(part, a_count, c_count, bytes[l.at_phase()])
}

// Reads a record back. 15: its length has no layout, a spare byte is not zero, or it is malformed; the running hash is then a
// fresh one.
pub fn unpark(bytes: &[u8], running: &mut Running) -> Result<(), Refusal>
    ensures { Reads (unparked bytes.now) (number_of result) running.new }
{
    *running = Running::new();
    let layout = layout_of(bytes.len()).ok_or(Refusal::BadParked)?;
    let state = state_at(layout, bytes);
    if state.is_malformed() || !zeros_from(bytes, layout.at_spare()) {
        return Err(Refusal::BadParked);
    }
    *running = state;
    Ok(())
}
