//! The parts of a head (RFC 8949 section 3). The initial byte has the [`Major`] type in its high
//! three bits, and the additional information in its low five: the argument up to 23, for 24 to 27
//! the [`Width`] of an argument that follows, for 31 an indefinite length.

ghost use Rattle.std.specs.Prelude.{◌≡◌, ◌↔◌, ◌+◌, ◌*◌, ◌/◌, ◌^◌, ◌≤◌, ◌<◌, ℕ, IsTrue};
ghost use Rattle.cborn_model.specs.Heads.{code, major_at, WidthFits, holds, least, is_simple_value};
ghost use Rattle.cborn_model.specs.Partial.{ended_size};

/// The major type of a data item (RFC 8949 section 3.1).
#[derive(Clone, Copy, PartialEq, Eq, Debug)]
pub enum Major {
    /// 0: an integer that isn't negative.
    Unsigned,
    /// 1: a negative integer, -1 - n for the argument n.
    Negative,
    /// 2: a byte string.
    ByteString,
    /// 3: a text string.
    TextString,
    /// 4: an array.
    Array,
    /// 5: a map.
    Map,
    /// 6: a tag.
    Tag,
    /// 7: a simple value, a float or the break.
    Other,
}

impl Major {
    /// Its number, from 0 to 7.
    #[inline(always)]
    pub fn number(self) -> u8
        ensures { result ≡ code self }
    {
        self as u8
    }

    /// The major type with this number; `Other` from 7 on.
    #[inline(always)]
    pub fn at(number: u8) -> Major
        ensures { result ≡ major_at number }
    {
        match number {
            0 => Major::Unsigned,
            1 => Major::Negative,
            2 => Major::ByteString,
            3 => Major::TextString,
            4 => Major::Array,
            5 => Major::Map,
            6 => Major::Tag,
            _ => Major::Other,
        }
    }

    /// The major type of the head that begins with this byte.
    #[inline(always)]
    #[tactic(auto, using(crate::proofs::Numbers::Majors::code_at))]
    pub fn of_initial_byte(byte: u8) -> Major
        ensures { code result ≡ byte / 32 }
    {
        Major::at(byte / 32)
    }

    /// The initial byte of a head with this additional information, from 0 to 31.
    #[inline(always)]
    pub fn initial_byte(self, information: u8) -> u8
        requires { information < 32 }
        ensures { result ≡ 32 * code self + information }
    {
        32 * self.number() + information
    }

    /// The head of an item of indefinite length, one byte (RFC 8949 section 3.2); of `Other` the
    /// break.
    #[inline(always)]
    pub fn endless_head(self) -> u8
        ensures { result ≡ 32 * code self + 31 }
    {
        self.initial_byte(31)
    }
}

/// The break, which ends an item of indefinite length (RFC 8949 section 3.2.1).
pub const BREAK: u8 = 0xff;

/// How many bytes the argument of a head takes after the initial byte (RFC 8949 section 3).
#[derive(Clone, Copy, PartialEq, Eq, Debug)]
pub enum Width {
    /// None: the argument, at most 23, is in the initial byte.
    Direct,
    /// One byte: an argument of at most 255.
    One,
    /// Two bytes: an argument of at most 65,535.
    Two,
    /// Four bytes: an argument below 2^32.
    Four,
    /// Eight bytes: an argument below 2^64.
    Eight,
}

/// How an array or a map says where it ends.
#[derive(Clone, Copy, PartialEq, Eq, Debug)]
pub enum Size {
    /// By a count in its head, of this width.
    Fixed(Width),
    /// By a break after its contents: the length is indefinite.
    Endless,
}

impl Width {
    /// Whether a head of this width has room for the argument `n`.
    #[inline]
    pub fn holds(self, n: u64) -> bool
        ensures fits { IsTrue result ↔ WidthFits self n }
        ensures test { result ≡ holds self n }
    {
        match self {
            Width::Direct => n < 24,
            Width::One => n < 256,
            Width::Two => n < 65536,
            Width::Four => n < 4294967296,
            Width::Eight => true,
        }
    }

    /// Whether no narrower width has room for `n`, and this one has (RFC 8949 section 4.2.1).
    #[inline(always)]
    pub fn is_shortest_for(self, n: u64) -> bool
        ensures { IsTrue result ↔ (self ≡ least n) }
    {
        let (least, most) = self.shortest_range();
        least <= n && n <= most
    }

    /// The least and the greatest number for which this width is the shortest. A look-up, since
    /// numbers of mixed sizes make the comparisons of `shortest` slow.
    #[inline(always)]
    fn shortest_range(self) -> (u64, u64)
        ensures { (n : ℕ) → n < 2 ^ 64 → (result.0 ≤ n) × (n ≤ result.1) ↔ (self ≡ least n) }
    {
        match self {
            Width::Direct => (0, 23),
            Width::One => (24, 255),
            Width::Two => (256, 65535),
            Width::Four => (65536, 4294967295),
            Width::Eight => (4294967296, u64::MAX),
        }
    }
}

/// The narrowest width that has room for `n` (RFC 8949 section 4.2.1).
pub fn shortest(n: u64) -> Width
    ensures { result ≡ least n }
{
    if n < 24 {
        Width::Direct
    } else if n < 256 {
        Width::One
    } else if n < 65536 {
        Width::Two
    } else if n < 4294967296 {
        Width::Four
    } else {
        Width::Eight
    }
}

/// The size of an array or a map that ends with `entries` items or pairs: that which it was given
/// at its start, or the narrowest that has room, if this is a width without a `count` that hasn't.
pub fn ended_size(size: Size, count: Option<u64>, entries: u64) -> Size
    ensures { result ≡ ended_size size count entries }
{
    match (size, count) {
        (Size::Fixed(width), None) if !width.holds(entries) => Size::Fixed(shortest(entries)),
        _ => size,
    }
}

/// Whether `n` is a simple value: 0 to 23, in the initial byte, or 32 to 255, in the next one (RFC
/// 8949 section 3.3).
#[inline]
pub fn is_simple_value(n: u64) -> bool
    ensures { result ≡ is_simple_value n }
{
    n < 24 || n >= 32 && n < 256
}
