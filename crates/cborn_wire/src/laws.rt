//! Laws of the bytes of data items: the contract of each function is a theorem.

ghost use Rattle.std.specs.Prelude.{◌≡◌, ℕ, ◌<◌, ◌≤◌, List, [], ◌++◌, length, ◌⊎◌};
ghost use Rattle.cborn_wire.specs.Common.{AreBytes, Tree, Trees, Fits, FitsAll, spelled, spelled_all, Wellformed, PlacedAll, WireReason, Truncated, placed_from, all_from, Slot, Open, IsWellformed, Fault, SlotRefused};
ghost use Rattle.cborn_wire.specs.Faults.{Refused};

/// Bytes have at most one reading: two lists of nodes that both spell them are equal if both begin
/// at the same offset (`placed`), and else equal but for offsets (`aside`: they are equal once
/// moved to any one offset).
#[tactic(auto, using(crate::proofs::Spelled::OneReading::one_spelling))]
pub fn one_reading()
    ensures placed { (limit p : ℕ) (ts us : Trees) (x : List ℕ) → Wellformed limit ts x → Wellformed limit us x → PlacedAll p ts → PlacedAll p us → ts ≡ us }
    ensures aside { (ts us : Trees) → FitsAll ts → FitsAll us → spelled_all ts ≡ spelled_all us → (p : ℕ) → all_from p ts ≡ all_from p us }
{}

/// No item begins another: if the bytes of one begin with those of another, both are the same item,
/// and nothing follows.
#[tactic(auto, using(crate::proofs::Spelled::OneReading::no_item_begins))]
pub fn no_item_begins_another()
    ensures { (t u : Tree) (y : List ℕ) → Fits t → Fits u → spelled t ++ y ≡ spelled u → (y ≡ []) × ((p : ℕ) → placed_from p t ≡ placed_from p u) }
{}

/// What is well-formed is bytes: each number is below 256.
pub fn well_formed_are_bytes()
    ensures { (limit : ℕ) (ts : Trees) (x : List ℕ) → Wellformed limit ts x → AreBytes x }
{}

/// The front of an input ends at no more than one slot, inside one number of open arrays, maps and
/// tags.
pub fn one_slot()
    ensures { (limit : ℕ) (f : List ℕ) (s t : Slot) (j k : ℕ) → Open limit f s j → Open limit f t k → (s ≡ t) × (j ≡ k) }
{}

/// Bytes are well-formed or have one fault: never neither, never both, never two.
pub fn one_fault()
    ensures some { (limit : ℕ) (x : List ℕ) → AreBytes x → IsWellformed limit x ⊎ ((p : ℕ) × (r : WireReason) × Fault limit x p r) }
    ensures not_both { (limit : ℕ) (x : List ℕ) (p : ℕ) (r : WireReason) → IsWellformed limit x → Fault limit x p r → ⊥ }
    ensures not_two { (limit : ℕ) (x : List ℕ) (p q : ℕ) (r s : WireReason) → Fault limit x p r → Fault limit x q s → (p ≡ q) × (r ≡ s) }
{}

/// A fault is at the offset of a head inside the bytes; only `Truncated` is at their end.
#[tactic(auto, using(crate::proofs::Spelled::FaultLaws::fault_inside, crate::proofs::Spelled::FaultLaws::fault_at_end))]
pub fn place_of_fault()
    ensures inside { (limit : ℕ) (x : List ℕ) (p : ℕ) (r : WireReason) → Fault limit x p r → (r ≡ Truncated → ⊥) → p < length x }
    ensures end { (limit : ℕ) (x : List ℕ) (p : ℕ) → Fault limit x p Truncated → p ≡ length x }
{}

/// The front of well-formed bytes is well-formed, or it is truncated at its end, and that is its
/// one fault.
pub fn fronts()
    ensures { (limit : ℕ) (x y : List ℕ) → IsWellformed limit (x ++ y) → IsWellformed limit x ⊎ (Fault limit x (length x) Truncated × ((p : ℕ) (r : WireReason) → Fault limit x p r → (p ≡ length x) × (r ≡ Truncated))) }
{}

/// A fault other than `Truncated` stays the fault, whatever bytes follow: of the same head, and so
/// of the whole input.
#[tactic(auto, using(crate::proofs::Spelled::FaultLaws::refused_stays, crate::proofs::Spelled::FaultLaws::fault_stays))]
pub fn faults_stay()
    ensures refused { (limit : ℕ) (x y : List ℕ) (p : ℕ) (r : WireReason) → Refused limit x p r → Refused limit (x ++ y) p r }
    ensures fault { (limit : ℕ) (x y : List ℕ) (p : ℕ) (r : WireReason) → Fault limit x p r → (r ≡ Truncated → ⊥) → Fault limit (x ++ y) p r }
{}

/// The table of slots, which judges a head by what is open around it, refuses exactly the heads
/// that aren't allowed.
#[tactic(auto, using(crate::proofs::Spelled::GoingOn::refused_said, crate::proofs::Spelled::FaultLaws::said_refused))]
pub fn faults_by_slots()
    ensures sound { (limit : ℕ) (x : List ℕ) (p : ℕ) (r : WireReason) → AreBytes x → SlotRefused limit x p r → Refused limit x p r }
    ensures found { (limit : ℕ) (x : List ℕ) (p : ℕ) (r : WireReason) → AreBytes x → Refused limit x p r → SlotRefused limit x p r }
{}

/// What is well-formed under a limit is so under each larger one, as the same nodes.
#[tactic(auto, using(crate::proofs::Spelled::FaultLaws::larger_limit))]
pub fn larger_limits()
    ensures { (limit most : ℕ) (ts : Trees) (x : List ℕ) → limit ≤ most → Wellformed limit ts x → Wellformed most ts x }
{}
