//! Which of the bytes that tell lines apart a text has.
//!
//! Most lines have only one or two of these bytes. So one pass over a line, by a table, tells which
//! searches would find nothing: those for a comment, an assignment, a head that ends before the
//! line does, and the parts of a header that few headers have.
ghost use Rattle.std.specs.Prelude.{◌≡◌, ◌<◌, ◌==◌, ◌||◌};
ghost use Rattle.std.specs.Int.{bit_at};
ghost use Rattle.mk_class.specs.Marks.{AreMarksOf, bits_of, is_marked};

// The place of the bit of each byte that tells lines apart.
const HASH: u32 = 0;

const EQUALS: u32 = 1;

const SEMICOLON: u32 = 2;

const COLON: u32 = 3;

const BAR: u32 = 4;

const DOLLAR: u32 = 5;

const BACKSLASH: u32 = 6;

/// The bits that each byte sets: `1 << HASH` for a `#`, and so on, and none for a byte that does not
/// tell lines apart. A constant table holds plain numbers; [`bits_of`] promises what they mean.
const BITS: [u8; 256] = [
    0, 0, 0, 0, 0, 0, 0, 0, 0, 0, 0, 0, 0, 0, 0, 0, 0, 0, 0, 0, 0, 0, 0, 0, 0, 0, 0, 0, 0, 0, 0, 0,
    0, 0, 0, 1, 32, 0, 0, 0, 0, 0, 0, 0, 0, 0, 0, 0, 0, 0, 0, 0, 0, 0, 0, 0, 0, 0, 8, 4, 0, 2, 0,
    0, 0, 0, 0, 0, 0, 0, 0, 0, 0, 0, 0, 0, 0, 0, 0, 0, 0, 0, 0, 0, 0, 0, 0, 0, 0, 0, 0, 0, 64, 0,
    0, 0, 0, 0, 0, 0, 0, 0, 0, 0, 0, 0, 0, 0, 0, 0, 0, 0, 0, 0, 0, 0, 0, 0, 0, 0, 0, 0, 0, 0, 16,
    0, 0, 0, 0, 0, 0, 0, 0, 0, 0, 0, 0, 0, 0, 0, 0, 0, 0, 0, 0, 0, 0, 0, 0, 0, 0, 0, 0, 0, 0, 0, 0,
    0, 0, 0, 0, 0, 0, 0, 0, 0, 0, 0, 0, 0, 0, 0, 0, 0, 0, 0, 0, 0, 0, 0, 0, 0, 0, 0, 0, 0, 0, 0, 0,
    0, 0, 0, 0, 0, 0, 0, 0, 0, 0, 0, 0, 0, 0, 0, 0, 0, 0, 0, 0, 0, 0, 0, 0, 0, 0, 0, 0, 0, 0, 0, 0,
    0, 0, 0, 0, 0, 0, 0, 0, 0, 0, 0, 0, 0, 0, 0, 0, 0, 0, 0, 0, 0, 0, 0, 0, 0, 0, 0, 0, 0, 0, 0, 0,
    0, 0, 0,
];

/// Which of the bytes `#`, `=`, `;`, `:`, `|`, `$` and backslash a text has: a bit for each.
///
/// The marks of a line cover its parts too: a part has none of these bytes but those that the line
/// has.
#[derive(Clone, Copy, Debug)]
pub(crate) struct Marks {
    bits: u8,
}

impl Marks {
    /// The marks of a text, in one pass over its bytes.
    #[inline(always)]
    pub(crate) fn of(text: &[u8]) -> Marks
        ensures { AreMarksOf result text.now }
    {
        let mut bits = 0;
        for byte in text {
            bits |= bits_of(*byte);
        }
        Marks { bits }
    }

    /// Whether the text has a `#`.
    #[inline(always)]
    pub(crate) fn has_hash(self) -> bool
        ensures { result ≡ is_marked self 35 }
    {
        self.has(HASH)
    }

    /// Whether the text has a `=`.
    #[inline(always)]
    pub(crate) fn has_equals(self) -> bool
        ensures { result ≡ is_marked self 61 }
    {
        self.has(EQUALS)
    }

    /// Whether the text has a `:`.
    #[inline(always)]
    pub(crate) fn has_colon(self) -> bool
        ensures { result ≡ is_marked self 58 }
    {
        self.has(COLON)
    }

    /// Whether the text has a `|`.
    #[inline(always)]
    pub(crate) fn has_bar(self) -> bool
        ensures { result ≡ is_marked self 124 }
    {
        self.has(BAR)
    }

    /// Whether the text has a `;` or a `#`, which end the head of a rule's line.
    #[inline(always)]
    pub(crate) fn has_end_of_head(self) -> bool
        ensures { result ≡ (is_marked self 59 || is_marked self 35) }
    {
        self.has(SEMICOLON) || self.has(HASH)
    }

    /// Whether the text has a `=`, a backslash or a `$`: each unit that makes a header Rough begins
    /// with one of them.
    #[inline(always)]
    pub(crate) fn has_unreadable(self) -> bool
        ensures { result ≡ (is_marked self 61 || (is_marked self 92 || is_marked self 36)) }
    {
        self.has(EQUALS) || (self.has(BACKSLASH) || self.has(DOLLAR))
    }

    /// Whether the bit at a place is set.
    #[inline(always)]
    fn has(self, place: u32) -> bool
        requires { place < 8 }
        ensures { result ≡ (bit_at self.bits place == 1) }
    {
        self.bits >> place & 1 != 0
    }
}

/// The bits that a byte sets.
#[inline(always)]
fn bits_of(byte: u8) -> u8
    ensures { result ≡ bits_of byte }
{
    BITS[byte as usize]
}
