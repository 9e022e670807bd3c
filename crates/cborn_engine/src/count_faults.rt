//! Why an input that has to hold a given number of items gives no answer.
ghost use Rattle.std.specs.Prelude.{◌≡◌};
ghost use Rattle.cborn_engine.specs.Common.{Result, CompareCountFault, CountFault, CompareFault, EngineFault};
ghost use Rattle.cborn_engine.specs.Counts.{compare_counted_of, counted_of, of_first_counted, of_second_counted};

use crate::faults::{CompareFault, EngineFault};
use crate::stream_faults::InputFault;
use std::alloc::AllocError;
use thiserror::Error;

/// Why an input that has to hold a given number of items gave no answer. Where any number will do, it is
/// `Engine`.
#[derive(Clone, Copy, PartialEq, Eq, Debug, Error)]
pub enum CountFault {
    /// The input is refused, or could not be read, which comes before the two that follow; or its
    /// answer could not be written; or out of memory.
    #[error("{0}")]
    Engine(EngineFault),
    /// The input holds no item. The place is its length in bytes.
    #[error("offset {0}: no item")]
    NoItem(u64),
    /// The input holds more than one item. The place is where the second starts, in bytes from the
    /// start of the input.
    #[error("offset {0}: more than one item")]
    MoreItems(u64),
}

/// Why two inputs could not be compared, each of which has to hold a given number of items.
#[derive(Clone, Copy, PartialEq, Eq, Debug, Error)]
pub enum CompareCountFault {
    /// The first input was not taken. Not a byte of the second was read.
    #[error("first: {0}")]
    First(CountFault),
    /// The second input was not taken.
    #[error("second: {0}")]
    Second(CountFault),
    /// Memory was refused.
    #[error("out of memory")]
    OutOfMemory,
}

impl From<EngineFault> for CountFault {
    ghost from_gives = { λ why e. e ≡ CountFault.Engine why };

    fn from(why: EngineFault) -> Self {
        CountFault::Engine(why)
    }
}

impl From<AllocError> for CountFault {
    ghost from_gives = { λ _ e. e ≡ CountFault.Engine EngineFault.OutOfMemory };

    fn from(_why: AllocError) -> Self {
        CountFault::Engine(EngineFault::OutOfMemory)
    }
}

impl From<InputFault> for CountFault {
    ghost use Rattle.cborn_engine.specs.Faults.{of_input};

    ghost from_gives = { λ why e. e ≡ CountFault.Engine (of_input why) };

    fn from(why: InputFault) -> Self {
        CountFault::Engine(EngineFault::from(why))
    }
}

impl CountFault {
    /// The fault of an input that may hold any number of items.
    pub fn of_any(self) -> EngineFault
        requires { (why : EngineFault) × (self ≡ CountFault.Engine why) }
        ensures { self ≡ CountFault.Engine result }
    {
        match self {
            CountFault::Engine(why) => why,
            CountFault::NoItem(_) | CountFault::MoreItems(_) => unreachable!(),
        }
    }
}

/// The answer for an input that may hold any number of items, whose fault is none of the count's.
pub fn of_any<A>(answer: Result<A, CountFault>) -> Result<A, EngineFault>
    requires { (any : Result A EngineFault) × (answer ≡ counted_of any) }
    ensures { answer ≡ counted_of result }
{
    match answer {
        Ok(found) => Ok(found),
        Err(why) => Err(why.of_any()),
    }
}

impl From<AllocError> for CompareCountFault {
    ghost from_gives = { λ _ e. e ≡ CompareCountFault.OutOfMemory };

    fn from(_why: AllocError) -> Self {
        CompareCountFault::OutOfMemory
    }
}

impl CompareCountFault {
    /// The fault of two inputs that may hold any number of items each.
    pub fn of_any(self) -> CompareFault
        requires { (why : CompareFault) × (self ≡ compare_counted_of why) }
        ensures { self ≡ compare_counted_of result }
    {
        match self {
            CompareCountFault::First(why) => CompareFault::First(why.of_any()),
            CompareCountFault::Second(why) => CompareFault::Second(why.of_any()),
            CompareCountFault::OutOfMemory => CompareFault::OutOfMemory,
        }
    }

    /// Why two inputs aren't compared, where the first was not taken for this reason.
    pub fn of_first(why: CountFault) -> Self
        ensures { result ≡ of_first_counted why }
    {
        match why {
            CountFault::Engine(EngineFault::OutOfMemory) => CompareCountFault::OutOfMemory,
            why => CompareCountFault::First(why),
        }
    }

    /// Why two inputs aren't compared, where the second was not taken for this reason.
    pub fn of_second(why: CountFault) -> Self
        ensures { result ≡ of_second_counted why }
    {
        match why {
            CountFault::Engine(EngineFault::OutOfMemory) => CompareCountFault::OutOfMemory,
            why => CompareCountFault::Second(why),
        }
    }
}
