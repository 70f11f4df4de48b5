// The settings of a call: what is allowed, and what follows from it.
ghost use Rattle.std.specs.Prelude.{◌≡◌};
ghost use Rattle.vector_registers.specs.Settings.{vlen_allowed, sew_allowed, lmul_allowed, group_registers, times_lmul, vlmax, register_bytes, file_bytes, group_length, misaligned, occupies, applies1, applies3};

// What the host sets before a word: VLEN and SEW in bits, LMUL in registers, tail and mask agnostic (vtype's vta and vma), vl and vstart
// in elements. Numbers and no enums: the host may pass any, and which are allowed is asked below.
#[derive(Clone, Copy)]
pub struct Settings {
    pub vlen: u32,
    pub sew: u32,
    pub lmul: u32,
    pub vta: bool,
    pub vma: bool,
    pub vl: u32,
    pub vstart: u32,
}

// ---- what is allowed, and what follows from it

// VLEN is 128, 256 or 512.
fn vlen_allowed(vlen: u32) -> bool
    ensures { result ≡ vlen_allowed vlen }
{
    matches!(vlen, 128 | 256 | 512)
}

// SEW is 8, 16, 32 or 64.
fn sew_allowed(sew: u32) -> bool
    ensures { result ≡ sew_allowed sew }
{
    matches!(sew, 8 | 16 | 32 | 64)
}

// LMUL is 1, 2, 4 or 8.
pub fn lmul_allowed(lmul: u32) -> bool
    ensures { result ≡ lmul_allowed lmul }
{
    matches!(lmul, 1 | 2 | 4 | 8)
}

// How many registers a group has.
fn group_registers(lmul: u32) -> u32
    ensures { result ≡ group_registers lmul }
{
    lmul
}

// LMUL times a number.
fn times_lmul(lmul: u32, n: u32) -> u64
    ensures { result ≡ times_lmul lmul n }
{
    u64::from(lmul) * u64::from(n)
}

// VLMAX; 0 where SEW is 0.
fn vlmax(vlen: u32, sew: u32, lmul: u32) -> u64
    ensures { result ≡ vlmax vlen sew lmul }
{
    times_lmul(lmul, vlen)
        .checked_div(u64::from(sew))
        .unwrap_or(0)
}

// The bytes of a register.
pub fn register_bytes(vlen: u32) -> usize
    ensures { result ≡ register_bytes vlen }
{
    vlen as usize / 8
}

// The bytes of the whole file.
fn file_bytes(vlen: u32) -> usize
    ensures { result ≡ file_bytes vlen }
{
    32 * (vlen as usize) / 8
}

// The bytes of a register group.
pub fn group_length(vlen: u32, lmul: u32) -> usize
    ensures { result ≡ group_length vlen lmul }
{
    (group_registers(lmul) as usize) * register_bytes(vlen)
}

// The group's number is no multiple of LMUL; the only multiple of 0 is 0.
pub fn misaligned(lmul: u32, register: u32) -> bool
    ensures { result ≡ misaligned lmul register }
{
    !register.is_multiple_of(group_registers(lmul))
}

// The group whose first register this is occupies a register.
pub fn occupies(lmul: u32, first: u32, register: u32) -> bool
    ensures { result ≡ occupies lmul first register }
{
    first <= register && u64::from(register) < u64::from(first) + u64::from(group_registers(lmul))
}

// ---- the numbers that no word is needed for, in the table's words

// VLEN not allowed, or file length not 32·VLEN/8.
pub fn applies_1(file_len: usize, vlen: u32) -> bool
    ensures { result ≡ applies1 file_len vlen }
{
    !vlen_allowed(vlen) || file_len != file_bytes(vlen)
}

// SEW or LMUL not allowed, or vl over VLMAX.
pub fn applies_3(s: Settings) -> bool
    ensures { result ≡ applies3 s }
{
    !sew_allowed(s.sew) || !lmul_allowed(s.lmul) || vlmax(s.vlen, s.sew, s.lmul) < u64::from(s.vl)
}
