// Why a call is refused: one table of reasons, with the numbers by which C knows them.
#![tactic(auto)]

ghost use Rattle.std.specs.Prelude.{◌≡◌};
ghost use Rattle.refusal.specs.Refusal.{number, number_of};

// The reasons, in the order of the numbers. Where several apply the one with the smallest number is given.
#[derive(Clone, Copy, PartialEq, Eq)]
pub enum Refusal {
    // VLEN is not allowed, or the register file has another length.
    BadVlenOrFile = 1,
    // The word is none of the eight; for the writer: there is no such word; for the reader: no word has this text.
    NotAWord = 2,
    // SEW or LMUL is not allowed, or vl is over VLMAX.
    BadSettings = 3,
    // A GHASH word, and SEW is not 32.
    SewNot32 = 4,
    // A GHASH word, and vl or vstart is no multiple of 4.
    NotMultipleOf4 = 5,
    // A register group's number is no multiple of LMUL, or, where a group is asked for, over 31.
    BadGroup = 6,
    // A .vs word, and its key lies in vd's group.
    KeyOverlap = 7,
    // The word is masked, and register 0 is an operand.
    MaskOverlap = 8,
    // A key, a block or an `out` is not 16 bytes long.
    Not16Bytes = 9,
    // The running hash is in the wrong phase, or malformed.
    BadRunning = 10,
    // A or C would pass the limit.
    TooLong = 11,
    // The step back: there is no earlier hash. The degree: the zero block has none.
    NoneExists = 12,
    // The step back: there is more than one earlier hash.
    ManyExist = 13,
    // A trace, or a record of one, is not well formed or has no room for a number.
    BadTrace = 14,
    // A parked record's length is wrong, or the record is malformed.
    BadParked = 15,
    // The lengths of links and results do not fit.
    BadLinks = 16,
    // A text's buffer is under 32 bytes.
    ShortText = 22,
}

impl Refusal {
    // Document 01's number.
    pub fn number(self) -> u32
        ensures { result ≡ number self }
    {
        self as u32
    }
}

// The number that a call answers to C: 0 where it is done.
pub fn number_of<T: Drop>(answer: Result<T, Refusal>) -> u32
    ensures { result ≡ number_of answer }
{
    match answer {
        Ok(_) => 0,
        Err(refusal) => refusal.number(),
    }
}
