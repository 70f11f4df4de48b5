// The executor and the group question.
ghost use Rattle.std.specs.Prelude.{false, ◌≡◌, length};
ghost use Rattle.vector_group.specs.Group.{group_refusal, part_start, part_length};
ghost use Rattle.vector_refusal.specs.Refusal.{refusal_of};
ghost use Rattle.vector_execute.specs.Execute.{executed, vstart_after};
ghost use Rattle.rvghash.specs.Call.{settings_of};

use refusal::number_of;
use vector_execute::execute::execute;
use vector_group::GroupAt;
use vector_registers::settings::Settings;

#[unsafe(no_mangle)]
pub extern "C" fn rvghash_execute(
    word: u32,
    vlen: u32,
    sew: u32,
    lmul: u32,
    vl: u32,
    vstart: &mut u32,
    scalar: u64,
    file: &mut [u8],
) -> u32
    ensures { (result ≡ refusal_of (length file.old) word (settings_of vlen sew lmul false false vl vstart.old))
        × (vstart.new ≡ vstart_after (length file.old) word (settings_of vlen sew lmul false false vl vstart.old))
        × (file.new ≡ executed word (settings_of vlen sew lmul false false vl vstart.old) scalar file.old) }
{
    let off = false;
    rvghash_execute_policies(word, vlen, sew, lmul, off, off, vl, vstart, scalar, file)
}

#[unsafe(no_mangle)]
pub extern "C" fn rvghash_execute_policies(
    word: u32,
    vlen: u32,
    sew: u32,
    lmul: u32,
    tail_agnostic: bool,
    mask_agnostic: bool,
    vl: u32,
    vstart: &mut u32,
    scalar: u64,
    file: &mut [u8],
) -> u32
    ensures { (result ≡ refusal_of (length file.old) word (settings_of vlen sew lmul tail_agnostic mask_agnostic vl vstart.old))
        × (vstart.new ≡ vstart_after (length file.old) word (settings_of vlen sew lmul tail_agnostic mask_agnostic vl vstart.old))
        × (file.new ≡ executed word (settings_of vlen sew lmul tail_agnostic mask_agnostic vl vstart.old) scalar file.old) }
{
    let mut s = Settings {
        vlen,
        sew,
        lmul,
        vta: tail_agnostic,
        vma: mask_agnostic,
        vl,
        vstart: *vstart,
    };
    let answer = execute(word, &mut s, scalar, file);
    *vstart = s.vstart;
    number_of(answer)
}

#[unsafe(no_mangle)]
pub extern "C" fn rvghash_group_refusal(vlen: u32, file_len: usize, lmul: u32, reg: u32) -> u32
    ensures { result ≡ group_refusal vlen file_len lmul reg }
{
    let asked = GroupAt {
        vlen,
        lmul,
        register: reg,
    };
    number_of(asked.refusal(file_len))
}

// Where the group lies in the file: its first byte and its length.
#[unsafe(no_mangle)]
pub extern "C" fn rvghash_group(
    vlen: u32,
    file_len: usize,
    lmul: u32,
    reg: u32,
    start: &mut usize,
    length: &mut usize,
) -> u32
    ensures { (result ≡ group_refusal vlen file_len lmul reg)
        × (start.new ≡ part_start vlen file_len lmul reg)
        × (length.new ≡ part_length vlen file_len lmul reg) }
{
    let asked = GroupAt {
        vlen,
        lmul,
        register: reg,
    };
    match asked.part(file_len) {
        Ok(part) => {
            *start = part.start;
            *length = part.length;
            0
        }
        Err(refusal) => {
            *start = 0;
            *length = 0;
            refusal.number()
        }
    }
}
