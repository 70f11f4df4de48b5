// How many cases agree.
ghost use Rattle.std.specs.Prelude.{◌≡◌};
ghost use Rattle.known_compare.specs.Counted.{counted};

use std::num::wrapping_add_u64;

// One case more.
pub fn count(agreed: u64, ok: bool) -> u64
    ensures { result ≡ counted agreed ok }
{
    if ok {
        return wrapping_add_u64(agreed, 1);
    }
    agreed
}
