//! The faults that are in the content of an input.

ghost use Rattle.std.specs.Prelude.{◌≡◌};
ghost use Rattle.cborn_explain.specs.Faults.{place_of};

use cborn_edn::{EdnFault, ShowFault};
use cborn_engine::{CountFault, EngineFault};
use cborn_judge::Invalid;
use cborn_lex::LexFault;
use cborn_wire::WireFault;
use std::alloc::AllocError;

/// What was looked for, where there is one, or that memory is refused.
pub(crate) type Found<T> = Result<Option<T>, AllocError>;

/// What was answered. `None`: the input is refused.
pub(crate) fn answered<T: Drop>(answer: Result<T, CountFault>) -> Found<T> {
    match answer {
        Ok(answer) => Ok(Some(answer)),
        Err(CountFault::Engine(EngineFault::OutOfMemory)) => Err(AllocError),
        Err(_) => Ok(None),
    }
}

/// The sentence for an input that doesn't hold exactly one item. Empty for any other fault.
pub(crate) fn count_sentence(fault: CountFault) -> &'static str {
    match fault {
        CountFault::NoItem(_) => "exactly one item is wanted, and the input ends here without one",
        CountFault::MoreItems(_) => "exactly one item is wanted, and a second begins here",
        CountFault::Engine(_) => "",
    }
}

/// The offset of a fault, in bytes from the start of the input. `None`: the fault isn't in the content of
/// the input.
pub fn place_of(fault: CountFault) -> Option<u64>
    ensures { result ≡ place_of fault }
{
    match fault {
        CountFault::NoItem(place)
        | CountFault::MoreItems(place)
        | CountFault::Engine(
            EngineFault::TextInput(place)
            | EngineFault::Wire(WireFault::Refused { place, .. })
            | EngineFault::Edn(
                EdnFault::Refused { place, .. } | EdnFault::Lex(LexFault::Refused { place, .. }),
            )
            | EngineFault::Invalid(Invalid::Refused { place, .. })
            | EngineFault::Show(ShowFault::NotUtf8 { place }),
        ) => Some(place),
        CountFault::Engine(_) => None,
    }
}
