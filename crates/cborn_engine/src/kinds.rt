//! What an input or an output is.
ghost use Rattle.std.specs.Prelude.{◌≡◌};
ghost use Rattle.cborn_engine.specs.Common.{MatchOption, Kind};
ghost use Rattle.cborn_engine.specs.devices.Encoding.{kind_of};

use cborn_lex::Profile;

/// What an input or an output is.
#[derive(Clone, Copy, PartialEq, Eq, Debug)]
pub enum Kind {
    /// The bytes of data items, one after another (RFC 8742).
    Wire,
    /// Diagnostic notation of profile 1 (RFC 8949 section 8, RFC 8610 appendix G).
    Notation,
    /// As an input, diagnostic notation of profile 2, which allows comments to the end of a line
    /// and commas after the last item. As an output it is what `Notation` is.
    Notation2,
}

/// The profile of an input that is notation. None: it is bytes.
pub fn profile_of(kind: Kind) -> Option<Profile>
    ensures { MatchOption result (kind ≡ Kind.Wire) (λ profile. kind ≡ kind_of profile) }
{
    match kind {
        Kind::Wire => None,
        Kind::Notation => Some(Profile::One),
        Kind::Notation2 => Some(Profile::Two),
    }
}
