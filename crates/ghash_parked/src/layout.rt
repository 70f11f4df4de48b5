// Where the fields of a parked record stand.
ghost use Rattle.std.specs.Prelude.{◌≡◌};
ghost use Rattle.ghash_parked.specs.Layout.{layout_of, at_count_c, at_phase, at_spare};

// How many bytes a record has for each of the two counts, and how many spare ones at its end. All else is fixed: Y (16), the
// open block (16), the count of A, the count of C, the phase (1), the spare bytes, one after the other.
#[derive(Clone, Copy)]
pub struct Layout {
    pub count_bytes: u8,
    pub spare_bytes: u8,
}

impl Layout {
    // Records of 48 bytes.
    pub const COUNTS_OF_4: Layout = Layout {
        count_bytes: 4,
        spare_bytes: 7,
    };

    pub(crate) const AT_BLOCK: usize = 16;

    pub(crate) const AT_COUNT_A: usize = 32;

    pub(crate) fn at_count_c(self) -> usize
        ensures { result ≡ at_count_c self }
    {
        Layout::AT_COUNT_A + usize::from(self.count_bytes)
    }

    pub(crate) fn at_phase(self) -> usize
        ensures { result ≡ at_phase self }
    {
        self.at_count_c() + usize::from(self.count_bytes)
    }

    pub(crate) fn at_spare(self) -> usize
        ensures { result ≡ at_spare self }
    {
        self.at_phase() + 1
    }
}

// Which layout has this length.
pub fn layout_of(len: usize) -> Option<Layout>
    ensures { result ≡ layout_of «len» }
{
    match len {
        48 => Some(Layout::COUNTS_OF_4),
        _ => None,
    }
}
