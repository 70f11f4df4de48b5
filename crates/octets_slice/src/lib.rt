// Runs of bytes in slices: where a part of a slice ends, bytes put at a place, and two slices compared.
#![tactic(auto)]

ghost use Rattle.std.specs.Prelude.{true, ◌≡◌, ◌+◌, ◌≤◌, min};
ghost use Rattle.std.proofs.lemmas.List.Edits.{sets};

// The end of a part of n bytes from `at` on, in a slice of this length: one that is cut short ends where the slice does.
pub fn part_end(at: usize, n: usize, len: usize) -> usize
    requires { at ≤ len }
    ensures { (result ≡ min (at + n) len) × (at ≤ result) × (result ≤ len) }
{
    at + n.min(len - at)
}

// Puts bytes from `at` on. Those that come to lie past the end are left out.
pub fn put(s: &mut [u8], at: usize, part: &[u8])
    ensures { s.new ≡ sets s.old at part.now }
{
    if s.len() < at {
        return;
    }
    let end = part_end(at, part.len(), s.len());
    // A byte at a time: `copy_from_slice` of a length that is not known calls memmove, which the archives do not need (docs/INTEGRATION.md).
    for i in at..end {
        s[i] = part[i - at];
    }
}

// Whether both are the same bytes.
pub fn same(a: &[u8], b: &[u8]) -> bool
    ensures { (result ≡ true → a.now ≡ b.now) × (a.now ≡ b.now → result ≡ true) }
{
    a == b
}
