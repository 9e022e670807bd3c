//! Laws of what nodes mean, and of defects: the contract of each function is a theorem.

ghost use Rattle.std.specs.Prelude.{◌≡◌, ◌<◌, ◌≤◌, ◌+◌, ◌^◌, ◌↔◌};
ghost use Rattle.cborn_judge.specs.Common.{ℕ, length, Means, AllMean, spelled, spelled_all, Fits, FitsAll, Tree, Trees, depth, IsProper, AreProper, value_depth, Value, Values, Det, DetValues};
ghost use Rattle.cborn_model.specs.Placed.{Placed};
ghost use Rattle.cborn_judge.specs.declared.defects.DefectReason as departs;
ghost use Rattle.cborn_judge.specs.declared.faults.InvalidReason as invalid;
ghost use Rattle.cborn_judge.specs.Defects.{Defect, IsFirstDefect, SequenceDefect, IsFirstOfSequence};
ghost use Rattle.cborn_judge.specs.Flaws.{Flaw, IsFirstFlaw, IsWord, Within};

use cborn_model::KeyOrder;

/// A node means at most one item.
#[tactic(auto, using(crate::proofs::Meaning::Meanings::means_once))]
pub fn one_meaning()
    ensures { (t : Tree) (a b : Value) → Means t a → Means t b → a ≡ b }
{}

/// What a node that fits means is valid. What any node means is no deeper than the node, if its
/// integers fit 64 bits.
#[tactic(auto, using(crate::proofs::Meaning::Meanings::meaning_valid, crate::proofs::Meaning::Meanings::means_shallow))]
pub fn valid_meaning()
    ensures valid { (t : Tree) (a : Value) → Fits t → length (spelled t) < 2 ^ 64 → Means t a → IsProper a }
    ensures shallow { (t : Tree) (a : Value) → ((q : Tree) → Within q t → IsWord q) → Means t a → value_depth a ≤ depth t }
{}

/// A node has no flaw exactly if it means an item.
pub fn no_flaw()
    ensures { (t : Tree) → ((p : ℕ) (r : invalid.InvalidReason) → Flaw t p r → ⊥) ↔ ((a : Value) × Means t a) }
{}

/// At most one flaw is the first. Each is within the bytes of a node whose parts have the offsets
/// of their bytes.
pub fn one_flaw()
    ensures one { (t : Tree) (p q : ℕ) (r s : invalid.InvalidReason) → IsFirstFlaw t p r → IsFirstFlaw t q s → (p ≡ q) × (r ≡ s) }
    ensures within { (t : Tree) (p q : ℕ) (r : invalid.InvalidReason) → Placed p t → Flaw t q r → (p ≤ q) × (q < p + length (spelled t)) }
{}

/// At most one defect is the first, of a node and of a sequence. Each is within the bytes of a node
/// whose parts have the offsets of their bytes.
pub fn one_defect<O: KeyOrder>()
    ensures one { (t : Tree) (p q : ℕ) (r s : departs.DefectReason) → IsFirstDefect O.order t p r → IsFirstDefect O.order t q s → (p ≡ q) × (r ≡ s) }
    ensures all { (ts : Trees) (p q : ℕ) (r s : departs.DefectReason) → IsFirstOfSequence O.order ts p r → IsFirstOfSequence O.order ts q s → (p ≡ q) × (r ≡ s) }
    ensures within { (t : Tree) (p q : ℕ) (r : departs.DefectReason) → Placed p t → Defect O.order t q r → (p ≤ q) × (q < p + length (spelled t)) }
{}

/// A node that means an item has no defect exactly if it spells the item's deterministic encoding.
/// So it is for a sequence.
pub fn checked<O: KeyOrder>()
    ensures one { (t : Tree) (a : Value) → Fits t → IsProper a → Means t a → ((p : ℕ) (r : departs.DefectReason) → Defect O.order t p r → ⊥) ↔ Det O.order a (spelled t) }
    ensures all { (ts : Trees) (vs : Values) → FitsAll ts → AreProper vs → AllMean ts vs → ((p : ℕ) (r : departs.DefectReason) → SequenceDefect O.order ts p r → ⊥) ↔ DetValues O.order vs (spelled_all ts) }
{}
