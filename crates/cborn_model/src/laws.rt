//! Laws of the definitions: the contract of each function is a theorem.

ghost use Rattle.std.specs.Prelude.{◌≡◌};
ghost use Rattle.cborn_model.specs.Value.{Value, Values, Same, SameValues};

use crate::Limit;

/// Each item is the same as itself.
#[tactic(auto, using(crate::proofs::SameItems::Sameness::same_itself, crate::proofs::SameItems::Sameness::values_same))]
pub fn same_itself()
    ensures items { (a : Value) → Same a a }
    ensures sequences { (a : Values) → SameValues a a }
{}

/// If an item is the same as another, the other is the same as it.
#[tactic(auto, using(crate::proofs::SameItems::Sameness::same_turned, crate::proofs::SameItems::Sameness::values_turned))]
pub fn same_turned()
    ensures items { (a b : Value) → Same a b → Same b a }
    ensures sequences { (a b : Values) → SameValues a b → SameValues b a }
{}

/// Items that are the same as a third are the same.
#[tactic(auto, using(crate::proofs::SameItems::Sameness::same_chained, crate::proofs::SameItems::Sameness::values_chained))]
pub fn same_chained()
    ensures items { (a b c : Value) → Same a b → Same b c → Same a c }
    ensures sequences { (a b c : Values) → SameValues a b → SameValues b c → SameValues a c }
{}

/// The usual limit, which is 128.
pub fn usual_limit() -> Limit
    ensures { result ≡ 128 }
{
    Limit::USUAL
}
