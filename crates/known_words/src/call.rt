// A record of data/words.bin: a call, its number, and the bytes that it should change.
ghost use Rattle.std.specs.Prelude.{◌≡◌};
ghost use Rattle.octets.specs.LittleEndian.{read_le};
ghost use Rattle.known_words.specs.Call.{number_at, settings_at};

use known_bytes::pattern::Pattern;
use octets_le::read_le;
use vector_registers::settings::Settings;

// The bytes before those that change.
pub const HEAD: usize = 60;

// What the file holds before a call.
pub const BEFORE: Pattern = Pattern(3, 7, 251);

// The number in the 4 bytes from `at` on.
pub fn number_at(s: &[u8], at: usize) -> u32
    ensures { result ≡ number_at s.now at }
{
    (read_le(s, at, 4) % 0x1_0000_0000) as u32
}

// The same as a length or a place.
pub fn length_at(s: &[u8], at: usize) -> usize
    ensures { result ≡ read_le s.now at 4 }
{
    read_le(s, at, 4) as usize
}

pub fn settings_at(s: &[u8]) -> Settings
    ensures { result ≡ settings_at s.now }
{
    Settings {
        vlen: number_at(s, 8),
        sew: number_at(s, 12),
        lmul: number_at(s, 16),
        vta: number_at(s, 52) != 0,
        vma: number_at(s, 56) != 0,
        vl: number_at(s, 20),
        vstart: number_at(s, 24),
    }
}
