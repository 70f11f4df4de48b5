// Register groups (group 9 of data/words.bin; the register stands in the word's place): the number that is given, and the part of the file
// that is handed back. Another pattern is written to the part; then the part is read again.
ghost use Rattle.std.specs.Prelude.{◌↔◌, IsTrue};
ghost use Rattle.known_words.specs.Call.{number_at, GroupIs, group_agrees};

use crate::call::number_at;
use known_bytes::pattern::{Pattern, fill};
use octets_slice::same;
use refusal::number_of;
use vector_group::{GroupAt, group, group_read};

// What is written to the part.
const WRITTEN: Pattern = Pattern(5, 11, 253);

fn write_part(file: &mut [u8], asked: GroupAt) {
    let part = group(file, asked);
    fill(WRITTEN, part);
}

// The number is the record's, and the part holds these bytes.
fn part_is(s: &[u8], changed: &[u8], file: &[u8], asked: GroupAt) -> bool
    ensures { IsTrue result ↔ GroupIs asked.vlen file.now asked.lmul asked.register (number_at s.now 40) changed.now }
{
    let ok = number_of(asked.refusal(file.len())) == number_at(s, 40);
    ok & same(group_read(file, asked), changed)
}

// Writes to the group that a record asks for; whether the number and the part are the record's.
pub fn written(s: &[u8], changed: &[u8], file: &mut [u8]) -> bool
    ensures { IsTrue result ↔ group_agrees s.now changed.now file.new }
{
    let asked = GroupAt {
        vlen: number_at(s, 8),
        lmul: number_at(s, 16),
        register: number_at(s, 4),
    };
    write_part(file, asked);
    part_is(s, changed, file, asked)
}
