// Where a part of a slice ends whose length stands in the slice.
ghost use Rattle.std.specs.Prelude.{◌≡◌, ◌+◌, ◌≤◌, min, length};
ghost use Rattle.octets.specs.LittleEndian.{read_le};

use octets_le::read_le;
use octets_slice::part_end;

// The end of a part whose number of bytes stands in the slice: in `size` bytes from `place` on, the lowest first.
pub fn counted_end(s: &[u8], at: usize, place: usize, size: usize) -> usize
    requires { (at ≤ length s.now) × (size ≤ 8) }
    ensures { (result ≡ min (at + read_le s.now place size) (length s.now))
        × (at ≤ result) × (result ≤ length s.now) }
{
    part_end(at, read_le(s, place, size) as usize, s.len())
}
