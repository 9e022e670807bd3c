//! Laws of the deterministic encoding (RFC 8949 section 4.2): the contract of each function is a
//! theorem for any order of keys.

ghost use Rattle.std.specs.Prelude.{◌≡◌, ◌+◌, ◌*◌, ◌≤◌, ◌++◌, ◌↔◌};
ghost use Rattle.cborn_det.specs.Common.{ℕ, List, [], All, IsPermutation, length, AllZip, Rising, IsProper, Value, Couples, dict, Same};
ghost use Rattle.cborn_model.specs.Meaning.{Means};
ghost use Rattle.cborn_model.specs.Spelled.{FitsAll, spelled_all};
ghost use Rattle.cborn_model.specs.Tree.{Tree, trees};
ghost use Rattle.cborn_det.specs.Det.{Det, DetSeq, DetMap, Entry, keys};

use cborn_model::KeyOrder;

/// Two valid items, however deep, have equal encodings exactly if they are the same.
pub fn one_encoding<O: KeyOrder>()
    ensures { (a b : Value) (x y : List ℕ) → IsProper a → IsProper b → Det O.order a x → Det O.order b y → (x ≡ y) ↔ Same a b }
{}

/// Every valid item, however deep, has an encoding.
#[tactic(auto, using(crate::proofs::Canon::det_exists))]
pub fn some_encoding<O: KeyOrder>()
    ensures { (a : Value) → IsProper a → (x : List ℕ) × Det O.order a x }
{}

/// What begins with an encoding begins with no other, and in particular no encoding is a proper
/// prefix of another.
#[tactic(auto, using(crate::proofs::Reading::reads))]
pub fn one_front<O: KeyOrder>()
    ensures reading { (a b : Value) (x y r s : List ℕ) → Det O.order a x → Det O.order b y → x ++ r ≡ y ++ s → (x ≡ y) × (r ≡ s) }
    ensures prefix { (a b : Value) (x y r : List ℕ) → Det O.order a x → Det O.order b y → x ++ r ≡ y → r ≡ [] }
{}

/// Two rearrangements of one list of keys, or of entries, that both rise are one list. Keys that
/// rise are distinct.
pub fn one_arrangement<O: KeyOrder>()
    ensures keys { (ks ls ms : List (List ℕ)) → IsPermutation ks ls → IsPermutation ks ms → Rising O.order ls → Rising O.order ms → ls ≡ ms }
    ensures entries { (es fs gs : List Entry) → IsPermutation es fs → IsPermutation es gs → Rising O.order (keys fs) → Rising O.order (keys gs) → fs ≡ gs }
{}

/// `Det` and `DetMap` agree on the encoding of a map.
pub fn by_pairs<O: KeyOrder>()
    ensures { (ps : Couples) (x : List ℕ) → Det O.order (dict ps) x ↔ DetMap O.order ps x }
{}

/// Two sequences of valid items have equal encodings exactly if they are the same, item by item.
#[tactic(auto, using(crate::proofs::Common::recursion_from_All, crate::proofs::Canon::seq_of_one, crate::proofs::Canon::one_of_seq))]
pub fn one_sequence<O: KeyOrder>()
    ensures { (vs ws : List Value) (x y : List ℕ) → All IsProper vs → All IsProper ws → DetSeq O.order vs x → DetSeq O.order ws y → (x ≡ y) ↔ AllZip Same vs ws }
{}

/// Every sequence of valid items has an encoding.
#[tactic(auto, using(crate::proofs::Common::recursion_from_All, crate::proofs::Canon::seq_exists))]
pub fn some_sequence<O: KeyOrder>()
    ensures { (vs : List Value) → All IsProper vs → (x : List ℕ) × DetSeq O.order vs x }
{}

/// The encodings of items take at most a third more bytes than any spelling of them: three for each
/// four, and one less for each item. Only lists of indefinite length, and bignums that fit 64 bits,
/// grow.
#[tactic(auto, using(crate::proofs::Room::sequence_room))]
pub fn room<O: KeyOrder>()
    ensures { (nodes : List Tree) (vs : List Value) (x : List ℕ) → FitsAll (trees nodes) → AllZip Means nodes vs → DetSeq O.order vs x → 3 * length x + length nodes ≤ 4 * length (spelled_all (trees nodes)) }
{}
