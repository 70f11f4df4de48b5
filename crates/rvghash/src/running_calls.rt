// The running hash that the caller lends, updated where it lies. A function for each path: the names are the C interface's.
ghost use Rattle.std.specs.Prelude.{◌≡◌, length};
ghost use Rattle.ghash_state.specs.State.{view, Fresh};
ghost use Rattle.ghash_running.specs.Answers.{FeedsA, FeedsC};
ghost use Rattle.ghash_lent.specs.Finish.{FinishesInto};
ghost use Rattle.ghash_parked.specs.Park.{park_number, parked_into, Reads, unparked};

use ghash_lent::running::{feed_a, feed_c, finish_into};
use ghash_parked::park::{park, unpark};
use ghash_state::Running;
use ghash_step::Path;
use refusal::number_of;

// Makes the lent running hash a fresh one.
#[unsafe(no_mangle)]
pub extern "C" fn rvghash_running_new(state: &mut Running)
    ensures { Fresh state.new }
{
    *state = Running::new();
}

// Takes a piece of A.
#[unsafe(no_mangle)]
pub extern "C" fn rvghash_feed_a(state: &mut Running, key: &[u8], piece: &[u8]) -> u32
    ensures { FeedsA key.now state.old piece.now result state.new }
{
    feed_a(Path::Fast, state, key, piece)
}

// The same on the plain path.
#[unsafe(no_mangle)]
pub extern "C" fn rvghash_feed_a_plain(state: &mut Running, key: &[u8], piece: &[u8]) -> u32
    ensures { FeedsA key.now state.old piece.now result state.new }
{
    feed_a(Path::Plain, state, key, piece)
}

// Takes a piece of C.
#[unsafe(no_mangle)]
pub extern "C" fn rvghash_feed_c(state: &mut Running, key: &[u8], piece: &[u8]) -> u32
    ensures { FeedsC key.now state.old piece.now result state.new }
{
    feed_c(Path::Fast, state, key, piece)
}

// The same on the plain path.
#[unsafe(no_mangle)]
pub extern "C" fn rvghash_feed_c_plain(state: &mut Running, key: &[u8], piece: &[u8]) -> u32
    ensures { FeedsC key.now state.old piece.now result state.new }
{
    feed_c(Path::Plain, state, key, piece)
}

// Finishes the lent running hash, and writes the hash to `out`.
#[unsafe(no_mangle)]
pub extern "C" fn rvghash_finish(state: &mut Running, key: &[u8], out: &mut [u8]) -> u32
    ensures { FinishesInto key.now state.old out.old result state.new out.new }
{
    finish_into(Path::Fast, state, key, out)
}

// The same on the plain path.
#[unsafe(no_mangle)]
pub extern "C" fn rvghash_finish_plain(state: &mut Running, key: &[u8], out: &mut [u8]) -> u32
    ensures { FinishesInto key.now state.old out.old result state.new out.new }
{
    finish_into(Path::Plain, state, key, out)
}

// Parks the lent running hash, which is only read, into a record.
#[unsafe(no_mangle)]
pub extern "C" fn rvghash_park(running: &Running, record: &mut [u8]) -> u32
    ensures { (result ≡ park_number (view running.now) (length «record».old))
        × («record».new ≡ parked_into (view running.now) «record».old) }
{
    number_of(park(*running, record))
}

// Reads a record back into the lent running hash; where the record is refused, it becomes a fresh one.
#[unsafe(no_mangle)]
pub extern "C" fn rvghash_unpark(running: &mut Running, record: &[u8]) -> u32
    ensures { Reads (unparked «record».now) result running.new }
{
    number_of(unpark(record, running))
}
