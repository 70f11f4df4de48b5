// A message cut into pieces for the running hash.
ghost use Rattle.std.specs.Prelude.{◌≡◌, ◌<◌, ◌≤◌};
ghost use Rattle.ghash_running.specs.Answers.{finished_hash};
ghost use Rattle.known_hashes.specs.Pieces.{FeedsIn, FedIn, FedAll, InPieces};

use ghash_block::block::Block;
use ghash_running::{Finished, feed_a, feed_c, finish};
use ghash_state::Running;
use ghash_step::Path;
use known_compare::compare::Seen;
use octets_slice::part_end;
use refusal::{Refusal, number_of};

// Which path each call takes: a part of a case's name, and so no closure.
#[derive(Clone, Copy)]
pub enum Mix {
    Plain,
    Fast,
    Turns,
}

// The part of a message that a piece belongs to.
#[derive(Clone, Copy)]
enum Part {
    A,
    C,
}

fn path_of(mix: Mix, turn: usize) -> Path {
    match mix {
        Mix::Plain => Path::Plain,
        Mix::Fast => Path::Fast,
        Mix::Turns => {
            if turn % 2 == 0 {
                Path::Fast
            } else {
                Path::Plain
            }
        }
    }
}

// What the calls gave so far: the last one's number, and the running hash, which a refusal leaves as it was. No Result: after a refusal
// the next piece is fed all the same.
#[derive(Clone, Copy)]
pub struct SoFar {
    pub number: u32,
    pub state: Running,
}

fn fed(part: Part, path: Path, state: Running, key: &[u8], piece: &[u8]) -> SoFar
    ensures { FeedsIn part key.now state piece.now result }
{
    let answer = match part {
        Part::A => feed_a(path, state, key, piece),
        Part::C => feed_c(path, state, key, piece),
    };
    SoFar {
        number: number_of(answer),
        state: answer.unwrap_or(state),
    }
}

// Where the piece that starts at `at` ends. A size of 0 takes all that is left.
fn piece_end(at: usize, size: usize, len: usize) -> usize
    requires { at < len }
    ensures { (at < result) × (result ≤ len) }
{
    if size == 0 {
        return len;
    }
    part_end(at, size, len)
}

// The answer to the last piece of s, in pieces of `size` bytes.
fn feed(part: Part, mix: Mix, size: usize, before: SoFar, key: &[u8], s: &[u8]) -> SoFar
    ensures { FedIn part key.now before s.now result }
{
    let mut last = before;
    let mut at: usize = 0;
    // A while: the piece's end is computed, and its place tells the path.
    while at < s.len() {
        let end = piece_end(at, size, s.len());
        let state = last.state;
        last = fed(part, path_of(mix, at / 16), state, key, &s[at..end]);
        at = end;
    }
    last
}

// The answer to the last piece of a message, an empty piece of A first.
fn fed_all(mix: Mix, size: usize, key: &[u8], a: &[u8], c: &[u8]) -> SoFar
    ensures { FedAll key.now a.now c.now result }
{
    let none = [0u8; 0];
    let begun = fed(Part::A, Path::Plain, Running::new(), key, &none);
    let after_a = feed(Part::A, mix, size, begun, key, a);
    feed(Part::C, mix, size, after_a, key, c)
}

// The hash of a finished run; the zero block on a refusal.
fn hash_of(end: Result<Finished, Refusal>) -> Block
    ensures { result ≡ finished_hash end }
{
    end.map_or(Block::ZERO, |finished| finished.hash)
}

// The hash of a message in pieces of `size` bytes. Where the last piece is refused, the number is that refusal's and the hash that of
// the pieces before it.
pub fn in_pieces(mix: Mix, size: usize, key: &[u8], a: &[u8], c: &[u8]) -> Seen
    ensures { InPieces key.now a.now c.now result }
{
    let last = fed_all(mix, size, key, a, c);
    let end = finish(path_of(mix, size), last.state, key);
    Seen {
        number: last.number | number_of(end),
        block: hash_of(end),
    }
}
