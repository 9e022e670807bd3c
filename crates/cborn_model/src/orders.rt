//! Orders of map keys by their encodings (RFC 8949 sections 4.2.1 and 4.2.3). An order is a type
//! without values: generic code is compiled for each. A caller may add one, with a proof of its
//! laws.

ghost use Rattle.std.specs.Prelude.{◌≡◌};
ghost use Rattle.cborn_model.specs.Common.{ℕ, List, IfSome};
ghost use Rattle.std.proofs.Common.{Ordering};
ghost use Rattle.cborn_model.specs.Orders.{IsKeyOrder, bytewise, length_first, order_of};
ghost use Rattle.cborn_model.specs.shared.OrderLaws.{bytewise_order, length_first_order};

use std::cmp::Ordering;

/// The two orders of map keys of RFC 8949 (sections 4.2.1 and 4.2.3).
#[derive(Clone, Copy)]
pub enum KnownOrder {
    /// That of [`Bytewise`].
    Bytewise,
    /// That of [`LengthFirst`].
    LengthFirst,
}

/// An order of map keys by their encodings.
pub trait KeyOrder {
    /// How two encodings compare, as contracts see it.
    ghost order: { List ℕ → List ℕ → Ordering };

    /// How the encoding `a` compares with the encoding `b`. Takes no memory.
    fn compare(a: &[u8], b: &[u8]) -> Ordering
        ensures { result ≡ order a.now b.now };

    /// Which order of RFC 8949 this is. An order that is neither, or doesn't say, leaves it at `None`.
    /// Keys are sorted more quickly by an order that is known. Takes no memory.
    #[inline(always)]
    fn known() -> Option<KnownOrder>
        ensures { IfSome result (λ known. order ≡ order_of known) }
    {
        None
    }

    /// Only equal encodings tie; swapping the arguments reverses the answer; less than is
    /// transitive.
    ghost laws: { IsKeyOrder order };
}

/// Lexicographic on bytes: a proper prefix comes first (RFC 8949 section 4.2.1).
pub struct Bytewise;

impl KeyOrder for Bytewise {
    ghost order = { bytewise };

    fn compare(a: &[u8], b: &[u8]) -> Ordering {
        a.cmp(b)
    }

    #[inline(always)]
    fn known() -> Option<KnownOrder> {
        Some(KnownOrder::Bytewise)
    }

    ghost laws = { bytewise_order };
}

/// The shorter first, and those of equal length bytewise (RFC 8949 section 4.2.3).
pub struct LengthFirst;

impl KeyOrder for LengthFirst {
    ghost order = { length_first };

    fn compare(a: &[u8], b: &[u8]) -> Ordering {
        a.len().cmp(&b.len()).then(a.cmp(b))
    }

    #[inline(always)]
    fn known() -> Option<KnownOrder> {
        Some(KnownOrder::LengthFirst)
    }

    ghost laws = { length_first_order };
}
