// How bytes go into a running hash's open block, and how the block is closed. That the key is prepared is a premise of
// each promise and no ghost field, for the reason that `PreparedKey` gives.
#![tactic(auto)]

ghost use Rattle.std.specs.Prelude.{true, ◌≡◌, ◌+◌, ◌%◌, ◌<◌, ◌≤◌, drop, length};
ghost use Rattle.std.proofs.lemmas.List.Edits.{sets};
ghost use Rattle.ghash_block.specs.Block.{value_of, key_of};
ghost use Rattle.ghash_step.specs.Path.{IsPrepared};
ghost use Rattle.ghash_state.specs.State.{part_of, none_open};
ghost use Rattle.gf128.specs.Running.{all_zero, pushed, closed};

use ghash_block::block::Block;
use ghash_bytes::block_at;
use ghash_state::Part;
use ghash_step::PreparedKey;

// The open block with these bytes from a place on.
fn with_bytes(block: [u8; 16], place: usize, s: &[u8]) -> [u8; 16]
    requires { place + length s.now ≤ 16 }
    ensures { result ≡ sets block place s.now }
{
    let mut bytes = block;
    // Not `octets_slice::put`: its loop would become a call of memcpy here, which the x86-64 archive does not need (docs/INTEGRATION.md).
    for i in place..16 {
        if i - place < s.len() {
            bytes[i] = s[i - place];
        }
    }
    bytes
}

// Bytes that fit into the open block, the first at a place of it; a full block is hashed.
fn put_run(key: &PreparedKey, place: usize, p: Part, s: &[u8]) -> Part
    requires { (place < 16) × (place + length s.now ≤ 16) }
    ensures { IsPrepared key.now → part_of result ≡ pushed (key_of key.now.key) place (part_of p) s.now }
{
    let end = place + s.len();
    let bytes = with_bytes(p.bytes, place, s);
    if end < 16 {
        return Part { y: p.y, bytes };
    }
    Part::none_open(key.next(p.y, block_at(&bytes, 0)))
}

// Bytes from a block's start, where no byte is open: whole blocks straight from the slice, then the rest.
fn push_from_start(key: &PreparedKey, y: Block, s: &[u8]) -> Part
    ensures { IsPrepared key.now → part_of result ≡ pushed (key_of key.now.key) 0 (none_open (value_of y)) s.now }
{
    let (whole, rest) = s.split_at(s.len() / 16 * 16);
    let part = Part::none_open(key.over_blocks(y, whole));
    put_run(key, 0, part, rest)
}

// A piece after n bytes of its part: first up to the end of the open block.
pub fn absorb(key: &PreparedKey, n: usize, p: Part, s: &[u8]) -> Part
    requires { all_zero (drop (n % 16) p.bytes) ≡ true }
    ensures { IsPrepared key.now → part_of result ≡ pushed (key_of key.now.key) n (part_of p) s.now }
{
    let place = n % 16;
    let gap = (16 - place) % 16;
    if s.len() <= gap {
        return put_run(key, place, p, s);
    }
    let (first, rest) = s.split_at(gap);
    let filled = put_run(key, place, p, first);
    push_from_start(key, filled.y, rest)
}

// The end of A or of C, of n bytes: an open block is padded with zeros and hashed.
pub fn close(key: &PreparedKey, n: usize, p: Part) -> Part
    ensures { IsPrepared key.now → part_of result ≡ closed (key_of key.now.key) n (part_of p) }
{
    if n % 16 == 0 {
        return p;
    }
    Part::none_open(key.next(p.y, block_at(&p.bytes, 0)))
}
