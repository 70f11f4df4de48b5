// The eight kinds of word, and what tells them apart beside their encoding: one table, and the questions that are asked of it.
#![tactic(auto)]

ghost use Rattle.std.specs.Prelude.{◌≡◌};
ghost use Rattle.vector_kind.specs.Kinds.{traits_with, traits, is_ghash, is_vv, is_vs, has_vs1_group, kind_number, kind_numbered};

use refusal::Refusal;

// The eight words of document 01's table, with the numbers by which C knows them.
#[derive(Clone, Copy, PartialEq, Eq)]
pub enum Kind {
    VclmulVv = 0,
    VclmulVx = 1,
    VclmulhVv = 2,
    VclmulhVx = 3,
    VghshVv = 4,
    VghshVs = 5,
    VgmulVv = 6,
    VgmulVs = 7,
}

// What a word does: a carry-less product of elements, or a GHASH product of groups of 128 bits.
#[derive(Clone, Copy, PartialEq, Eq)]
pub enum Operation {
    Carryless,
    Ghash,
}

// How its sources are given, by the ending of its name.
#[derive(Clone, Copy, PartialEq, Eq)]
pub enum Form {
    Vv,
    Vx,
    Vs,
}

// A row of the table, a field for each column.
#[derive(Clone, Copy, PartialEq, Eq)]
pub struct Traits {
    pub operation: Operation,
    pub form: Form,
    pub vs1_group: bool,
}

impl Traits {
    // Carry-less or GHASH; .vv, .vx or .vs; vs1 a register group or not.
    fn new(operation: Operation, form: Form, vs1_group: bool) -> Self
        ensures { result ≡ traits_with operation form vs1_group }
    {
        Self {
            operation,
            form,
            vs1_group,
        }
    }
}

impl Kind {
    // The kinds in the order of their numbers.
    pub const ALL: [Kind; 8] = [
        Kind::VclmulVv,
        Kind::VclmulVx,
        Kind::VclmulhVv,
        Kind::VclmulhVx,
        Kind::VghshVv,
        Kind::VghshVs,
        Kind::VgmulVv,
        Kind::VgmulVs,
    ];

    // The kind's row of the table.
    pub fn traits(self) -> Traits
        ensures { result ≡ traits self }
    {
        match self {
            Kind::VclmulVv => Traits::new(Operation::Carryless, Form::Vv, true),
            Kind::VclmulVx => Traits::new(Operation::Carryless, Form::Vx, false),
            Kind::VclmulhVv => Traits::new(Operation::Carryless, Form::Vv, true),
            Kind::VclmulhVx => Traits::new(Operation::Carryless, Form::Vx, false),
            Kind::VghshVv => Traits::new(Operation::Ghash, Form::Vv, true),
            Kind::VghshVs => Traits::new(Operation::Ghash, Form::Vs, true),
            Kind::VgmulVv => Traits::new(Operation::Ghash, Form::Vv, false),
            Kind::VgmulVs => Traits::new(Operation::Ghash, Form::Vs, false),
        }
    }

    // A GHASH word: vghsh and vgmul.
    pub fn is_ghash(self) -> bool
        ensures { result ≡ is_ghash self }
    {
        self.traits().operation == Operation::Ghash
    }

    pub fn is_vv(self) -> bool
        ensures { result ≡ is_vv self }
    {
        self.traits().form == Form::Vv
    }

    // A .vs word: vs2 is the key alone, and no group.
    pub fn is_vs(self) -> bool
        ensures { result ≡ is_vs self }
    {
        self.traits().form == Form::Vs
    }

    // vs1 is a register group.
    pub fn has_vs1_group(self) -> bool
        ensures { result ≡ has_vs1_group self }
    {
        self.traits().vs1_group
    }
}

// The kind's number.
impl From<Kind> for u32 {
    ghost from_gives = { λ k n. n ≡ kind_number k };

    fn from(k: Kind) -> u32 {
        k as u32
    }
}

// The kind that has a number; a number that no kind has is refused with document 01's 2.
impl TryFrom<u32> for Kind {
    type Error = Refusal;

    ghost try_from_gives = { λ n r. r ≡ kind_numbered n };

    fn try_from(n: u32) -> Result<Kind, Refusal> {
        match n {
            0 => Ok(Kind::VclmulVv),
            1 => Ok(Kind::VclmulVx),
            2 => Ok(Kind::VclmulhVv),
            3 => Ok(Kind::VclmulhVx),
            4 => Ok(Kind::VghshVv),
            5 => Ok(Kind::VghshVs),
            6 => Ok(Kind::VgmulVv),
            7 => Ok(Kind::VgmulVs),
            _ => Err(Refusal::NotAWord),
        }
    }
}
