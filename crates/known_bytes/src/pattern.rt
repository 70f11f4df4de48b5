// Bytes that can be made again.
ghost use Rattle.std.specs.Prelude.{◌≡◌, length};
ghost use Rattle.known_bytes.specs.Pattern.{next_of, filled};

// Byte i is (step i + first) mod modulus: the first, the step and the modulus.
#[derive(Clone, Copy)]
pub struct Pattern(pub u64, pub u64, pub u64);

impl Pattern {
    // The byte after b.
    fn next(self, b: u64) -> u64
        ensures { result ≡ next_of self b }
    {
        if self.2 == 0 {
            return 0;
        }
        std::num::wrapping_add_u64(b, self.1) % self.2
    }
}

pub fn fill(p: Pattern, s: &mut [u8])
    ensures { s.new ≡ filled p (length s.old) }
{
    let mut b = p.0;
    for byte in s.iter_mut() {
        *byte = (b % 256) as u8;
        b = p.next(b);
    }
}
