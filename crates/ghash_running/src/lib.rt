// The running hash: a message in pieces, on a path that is given. It holds no key; the key comes with every call.
#![tactic(auto)]

ghost use Rattle.std.specs.Prelude.{◌≡◌, ◌+◌, cond, eqb, ltb, length, IfOk};
ghost use Rattle.ghash_block.specs.Block.{key_of};
ghost use Rattle.ghash_step.specs.Path.{IsPrepared};
ghost use Rattle.ghash_state.specs.State.{view, part_of};
ghost use Rattle.ghash_running.specs.Answers.{FeedsA, FeedsC, Finishes, state_after, finished_state, finished_hash};
ghost use Rattle.gf128.specs.Hash.{limit};
ghost use Rattle.gf128.specs.Running.{started_c, finish_refusal};
ghost use Rattle.refusal.specs.Refusal.{number_of};

use ghash_absorb::{absorb, close};
use ghash_block::block::Block;
use ghash_bytes::key_at_start;
use ghash_state::{LIMIT, Part, Running};
use ghash_step::{Path, PreparedKey, length_block};
use ghash_tables::TABLES;
use refusal::Refusal;

// The running hash after it is finished, and the hash.
#[derive(Clone, Copy)]
pub struct Finished {
    pub state: Running,
    pub hash: Block,
}

// What every call refuses: a key not 16 bytes long, then a malformed or a finished running hash.
fn check_call(state: Running, key: &[u8]) -> Result<(), Refusal>
    ensures { number_of result ≡ finish_refusal key.now (view state) }
{
    if key.len() != 16 {
        return Err(Refusal::Not16Bytes);
    }
    if state.is_malformed() || state.phase == 2 {
        return Err(Refusal::BadRunning);
    }
    Ok(())
}

// The bytes of A or of C with those of a piece.
fn count_with(count: u32, piece: &[u8]) -> Result<u32, Refusal>
    ensures refused { number_of result ≡ cond (ltb limit (count + length piece.now)) 11 0 }
    ensures counted { IfOk result (λ total. total ≡ count + length piece.now) }
{
    let total = count as usize + piece.len();
    if LIMIT < total {
        return Err(Refusal::TooLong);
    }
    Ok(total as u32)
}

// The part that C goes on with: the first C ends A, even one of length 0.
fn started_c(key: &PreparedKey, state: Running) -> Part
    ensures { IsPrepared key.now → part_of result ≡ started_c (key_of key.now.key) (view state) }
{
    let part = Part::from(state);
    if state.phase == 0 {
        close(key, state.a_count as usize, part)
    } else {
        part
    }
}

// The bytes of the part that is open: A's in phase 0, C's in phase 1.
fn open_count(state: Running) -> u32
    ensures { result ≡ cond (eqb (view state).phase 0) (view state).count_a (view state).count_c }
{
    match state.phase {
        0 => state.a_count,
        _ => state.c_count,
    }
}

// Feeds a piece of A: the running hash afterwards.
pub fn feed_a(path: Path, state: Running, key: &[u8], piece: &[u8]) -> Result<Running, Refusal>
    ensures { FeedsA key.now state piece.now (number_of result) (state_after state result) }
{
    check_call(state, key)?;
    if state.phase != 0 {
        return Err(Refusal::BadRunning);
    }
    let a_count = count_with(state.a_count, piece)?;
    let mut numbers = [0; TABLES];
    let prepared = PreparedKey::new(path, key_at_start(key), &mut numbers);
    let part = absorb(&prepared, state.a_count as usize, Part::from(state), piece);
    Ok(Running::of(part, a_count, state.c_count, 0))
}

// Feeds a piece of C; the first, even of length 0, ends A.
pub fn feed_c(path: Path, state: Running, key: &[u8], piece: &[u8]) -> Result<Running, Refusal>
    ensures { FeedsC key.now state piece.now (number_of result) (state_after state result) }
{
    check_call(state, key)?;
    let c_count = count_with(state.c_count, piece)?;
    let mut numbers = [0; TABLES];
    let prepared = PreparedKey::new(path, key_at_start(key), &mut numbers);
    let part = absorb(
        &prepared,
        state.c_count as usize,
        started_c(&prepared, state),
        piece,
    );
    Ok(Running::of(part, state.a_count, c_count, 1))
}

// Finishes: the hash is then also Y.
pub fn finish(path: Path, state: Running, key: &[u8]) -> Result<Finished, Refusal>
    ensures { Finishes key.now state (number_of result) (finished_state state result) (finished_hash result) }
{
    check_call(state, key)?;
    let mut numbers = [0; TABLES];
    let prepared = PreparedKey::new(path, key_at_start(key), &mut numbers);
    let closed = close(&prepared, open_count(state) as usize, Part::from(state));
    let lengths = length_block(state.a_count as usize, state.c_count as usize);
    let hash = prepared.next(closed.y, lengths);
    let state = Running::of(Part::none_open(hash), state.a_count, state.c_count, 2);
    Ok(Finished { state, hash })
}
