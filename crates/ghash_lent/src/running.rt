// The calls on a running hash that is lent, and updated where it lies: thin forms over those that have it by value.
// Each gives the number, as the C interface has it.
ghost use Rattle.std.specs.Prelude.{◌≡◌};
ghost use Rattle.ghash_running.specs.Answers.{FeedsA, FeedsC, state_after};
ghost use Rattle.ghash_lent.specs.Finish.{FinishesInto};
ghost use Rattle.refusal.specs.Refusal.{number_of};

use crate::out::put_answer;
use ghash_state::Running;
use ghash_step::Path;
use refusal::Refusal;

// A refusal leaves the lent running hash as it was.
fn put_running(answer: Result<Running, Refusal>, running: &mut Running) -> u32
    ensures { (result ≡ number_of answer) × (running.new ≡ state_after running.old answer) }
{
    match answer {
        Ok(after) => {
            *running = after;
            0
        }
        Err(refusal) => refusal.number(),
    }
}

// Feeds a piece of A.
pub fn feed_a(path: Path, running: &mut Running, key: &[u8], piece: &[u8]) -> u32
    ensures { FeedsA key.now running.old piece.now result running.new }
{
    put_running(ghash_running::feed_a(path, *running, key, piece), running)
}

// Feeds a piece of C.
pub fn feed_c(path: Path, running: &mut Running, key: &[u8], piece: &[u8]) -> u32
    ensures { FeedsC key.now running.old piece.now result running.new }
{
    put_running(ghash_running::feed_c(path, *running, key, piece), running)
}

// Finishes, and writes the hash to `out`; where that is not 16 bytes long, the running hash stays as it was.
pub fn finish_into(path: Path, running: &mut Running, key: &[u8], out: &mut [u8]) -> u32
    ensures { FinishesInto key.now running.old out.old result running.new out.new }
{
    if out.len() != 16 {
        return Refusal::Not16Bytes.number();
    }
    match ghash_running::finish(path, *running, key) {
        Ok(finished) => {
            *running = finished.state;
            put_answer(Ok(finished.hash), out)
        }
        Err(refusal) => put_answer(Err(refusal), out),
    }
}
