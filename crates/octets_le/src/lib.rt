// Numbers at a place in a slice, the lowest byte first: a read past the end gives zeros, and a write past the end changes nothing.
#![tactic(auto)]

ghost use Rattle.std.specs.Prelude.{◌≡◌, ◌≤◌, set};
ghost use Rattle.octets.specs.LittleEndian.{read_le, write_le};

use octets::byte_or_zero;

// The number in the n bytes from `at` on, the lowest byte first.
pub fn read_le(s: &[u8], at: usize, n: usize) -> u64
    requires { n ≤ 8 }
    ensures { result ≡ read_le s.now at n }
{
    if s.len() <= at {
        return 0;
    }
    let mut v: u64 = 0;
    for i in (0..n).rev() {
        v = v * 256 + byte_or_zero(s, at + i);
    }
    v
}

// Sets the byte at a place, if it is there.
pub fn put_byte(s: &mut [u8], at: usize, b: u8)
    ensures { s.new ≡ set s.old at b }
{
    if at < s.len() {
        s[at] = b;
    }
}

// Writes the n low bytes of v from `at` on, the lowest first.
pub fn write_le(s: &mut [u8], at: usize, n: usize, v: u64)
    requires { n ≤ 8 }
    ensures { s.new ≡ write_le n s.old at v }
{
    if s.len() <= at {
        return;
    }
    let mut left = v;
    for i in 0..n {
        put_byte(s, at + i, (left % 256) as u8);
        left /= 256;
    }
}
