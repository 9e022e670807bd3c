//! What follows from the contracts. Each function but `two_calls` does nothing; its contract is a
//! theorem over the definitions in `specs/`.

ghost use Rattle.std.specs.Prelude.{◌≡◌, ◌≤◌, ◌↔◌, ◌⊎◌, ◌++◌};
ghost use Rattle.cborn_engine.specs.Common.{ℕ, List, Option, None, Some, Ok, Err, IfOk, IfErr, length, cow_slice_items, Consumes, IsAtEnd, AllZip, AllByRecursion, Tree, Trees, FitsAll, spelled_all, IsProper, Value, Values, Same, SameValues, values_of, DetValues, DetSeq, IsPlain, Shown, EngineFault, Kind};
ghost use Rattle.cborn_engine.specs.Bytes.{BytesHold};
ghost use Rattle.cborn_engine.specs.Holding.{Holds, HoldSameItems, Spells, Canon};
ghost use Rattle.cborn_engine.specs.Loading.{LoadAnswers};
ghost use Rattle.cborn_engine.specs.Refusing.{IsRefused, IsNoRefusal, IsTrouble};
ghost use Rattle.cborn_engine.specs.Canonical.{IsCanonical, NormaliseAnswers};
ghost use Rattle.cborn_engine.specs.Writing.{IsFront};
ghost use Rattle.cborn_engine.specs.Comparing.{AreCompared};
ghost use Rattle.cborn_engine.specs.Checking.{IsChecked};
ghost use Rattle.cborn_engine.specs.Showing.{IsShown};
ghost use Rattle.cborn_engine.specs.Whole.{IsRefusedWhole};
ghost use Rattle.cborn_engine.specs.Reading.{most_bytes};

use crate::counts::Count;
use crate::faults::EngineFault;
use crate::kinds::Kind;
use crate::slices::normalise_slice;
use cborn_model::{KeyOrder, Limit};
use std::alloc::Global;
use std::borrow::CowSlice;

/// The headline. Two inputs, each of any kind, have the same canonical form, under one order of
/// keys and one limit, exactly if they hold the same items. A canonical form holds the items that
/// it is the form of, and it is its own canonical form.
pub fn headline<O: KeyOrder>()
    ensures alike { (k l out : Kind) (limit : ℕ) (x y v w : List ℕ) → length x ≤ most_bytes → length y ≤ most_bytes → IsCanonical O.order k out limit x v → IsCanonical O.order l out limit y w → (v ≡ w) ↔ HoldSameItems k l limit x y }
    ensures held { (k out : Kind) (limit : ℕ) (x v : List ℕ) → length x ≤ most_bytes → IsCanonical O.order k out limit x v → HoldSameItems k out limit x v }
    ensures again { (k out : Kind) (limit : ℕ) (x v : List ℕ) → length x ≤ most_bytes → IsCanonical O.order k out limit x v → IsCanonical O.order out out limit v v }
{}

/// Nodes that spell deterministic encodings have the same text in the notation of these, in which
/// there is no indicator and no string in chunks, as in the fixed notation of all nodes.
#[tactic(auto, using(crate::proofs::Canonical::PlainText::plain_is))]
pub fn canonical_text<O: KeyOrder>()
    ensures { (items : List Value) (nodes : Trees) (text : List ℕ) → FitsAll nodes → DetSeq O.order items (spelled_all nodes) → IsPlain nodes text ↔ Shown nodes text }
{}

/// The headline of two calls. This law has a body: it calls `normalise_slice` twice. It fails only
/// where one of the calls does.
///
/// # Errors
/// Those of the calls.
#[tactic(auto, using(crate::proofs::CountAnswers::Answered::engine_of, crate::proofs::Canonical::Headline::same_held))]
pub fn two_calls<'a, 'b, O: KeyOrder>(
    alloc: Global,
    limit: Limit,
    out_kind: Kind,
    kind_a: Kind,
    first: &'a [u8],
    kind_b: Kind,
    second: &'b [u8],
) -> Result<(CowSlice<'a, u8, Global>, CowSlice<'b, u8, Global>), EngineFault>
    ensures alike { IfOk result (λ both. (cow_slice_items both.0 ≡ cow_slice_items both.1) ↔ HoldSameItems kind_a kind_b limit first.now second.now) }
    ensures held { IfOk result (λ both. HoldSameItems kind_a out_kind limit first.now (cow_slice_items both.0) × HoldSameItems kind_b out_kind limit second.now (cow_slice_items both.1)) }
    ensures refused { IfErr result (λ why. IsRefusedWhole kind_a limit most_bytes first.now why ⊎ IsRefusedWhole kind_b limit most_bytes second.now why) }
{
    let ours = match normalise_slice::<O>(alloc, limit, Count::Any, kind_a, out_kind, first) {
        Ok(bytes) => bytes,
        Err(why) => return Err(why.of_any()),
    };
    let theirs = match normalise_slice::<O>(alloc, limit, Count::Any, kind_b, out_kind, second) {
        Ok(bytes) => bytes,
        Err(why) => return Err(why.of_any()),
    };
    Ok((ours, theirs))
}

/// The headline of bytes alone, of any length and depth. Two inputs of bytes have the same
/// deterministic encoding exactly if they hold the same items. That encoding holds items that are
/// the same as those of the input, and is the deterministic encoding of what it holds. Bytes hold
/// at most one list of items.
pub fn headline_of_bytes<O: KeyOrder>()
    ensures alike { (x y v w : List ℕ) (items others : Values) → BytesHold x items → BytesHold y others → DetValues O.order items v → DetValues O.order others w → (v ≡ w) ↔ SameValues items others }
    ensures again { (x v : List ℕ) (items : Values) → BytesHold x items → DetValues O.order items v → (others : Values) × BytesHold v others × SameValues items others × DetValues O.order others v }
    ensures one { (x : List ℕ) (items others : Values) → BytesHold x items → BytesHold x others → items ≡ others }
{}

/// What an input of bytes holds under some limit is what the bytes hold, and what bytes hold an
/// input of them holds under some limit. So its canonical form, as bytes, is the deterministic
/// encoding of what the bytes hold.
#[tactic(auto, using(crate::proofs::Canonical::OfBytes::held_within))]
pub fn bytes_alone<O: KeyOrder>()
    ensures held { (limit : ℕ) (x : List ℕ) (items : List Value) → Holds Kind.Wire limit x items → BytesHold x (values_of items) }
    ensures within { (x : List ℕ) (items : List Value) → BytesHold x (values_of items) → (limit : ℕ) × Holds Kind.Wire limit x items }
    ensures canonical { (limit : ℕ) (x v : List ℕ) → IsCanonical O.order Kind.Wire Kind.Wire limit x v → (items : Values) × BytesHold x items × DetValues O.order items v }
{}

/// Where a canonical form that is no longer than an input may be is normalised again, that is
/// refused only where the reader, the writer or memory failed, and what went out is a front of the
/// same bytes.
pub fn refused_again<O: KeyOrder>()
    ensures { (k out : Kind) (limit most : ℕ) (x v w : List ℕ) (why : EngineFault) → length x ≤ most_bytes → length v ≤ most → IsCanonical O.order k out limit x v → NormaliseAnswers O.order out out limit most v w (Err why) → IsTrouble why × IsFront w v }
{}

/// A check finds no defect exactly if normalising would write the very bytes that came in.
pub fn checked<O: KeyOrder>()
    ensures { (limit : ℕ) (x : List ℕ) → IsChecked O.order limit x None ↔ IsCanonical O.order Kind.Wire Kind.Wire limit x x }
{}

/// A comparison finds no difference exactly if both inputs hold the same items.
pub fn compared()
    ensures { (k l : Kind) (limit : ℕ) (x y : List ℕ) → AreCompared k l limit x y None ↔ HoldSameItems k l limit x y }
{}

/// The canonical form of two inputs of bytes, one after the other, is that of the first and then that of the
/// other.
#[tactic(auto, using(crate::proofs::Canonical::OfBytes::joined))]
pub fn joined<O: KeyOrder>()
    ensures { (limit : ℕ) (x y v w : List ℕ) → IsCanonical O.order Kind.Wire Kind.Wire limit x v → IsCanonical O.order Kind.Wire Kind.Wire limit y w → IsCanonical O.order Kind.Wire Kind.Wire limit (x ++ y) (v ++ w) }
{}

/// What is shown of bytes, of whatever kind, is shown as those bytes again; and what is shown of an
/// input is one.
#[tactic(auto, using(crate::proofs::Held::ShownBack::shown_as_bytes))]
pub fn shown_back()
    ensures back { (out : Kind) (limit : ℕ) (x v : List ℕ) → IsShown Kind.Wire out limit x v → IsShown out Kind.Wire limit v x }
    ensures one { (k out : Kind) (limit : ℕ) (x v w : List ℕ) → IsShown k out limit x v → IsShown k out limit x w → v ≡ w }
{}

/// Two inputs, of any kinds, have the same canonical form exactly if they hold the same items.
pub fn same_answer<O: KeyOrder>()
    ensures { (k l out : Kind) (limit : ℕ) (x y v w : List ℕ) → length x ≤ most_bytes → length y ≤ most_bytes → (a : IsCanonical O.order k out limit x v) (b : IsCanonical O.order l out limit y w) → (v ≡ w) ↔ AllZip Same a.items b.items }
{}

/// The canonical form of a canonical form is that form.
pub fn same_again<O: KeyOrder>()
    ensures { (k out : Kind) (limit : ℕ) (x v w : List ℕ) → length x ≤ most_bytes → IsCanonical O.order k out limit x v → IsCanonical O.order out out limit v w → w ≡ v }
{}

/// The items of an input that has a canonical form are valid, at whatever depth.
pub fn valid_items<O: KeyOrder>()
    ensures { (k out : Kind) (limit : ℕ) (x v : List ℕ) → length x ≤ most_bytes → (a : IsCanonical O.order k out limit x v) → AllByRecursion IsProper a.items }
{}

/// A canonical form holds items that are the same as those of the input.
#[tactic(auto, using(crate::proofs::Canonical::Canonicity::reads_back))]
pub fn reads_back<O: KeyOrder>()
    ensures { (k out : Kind) (limit : ℕ) (x v : List ℕ) → length x ≤ most_bytes → (a : IsCanonical O.order k out limit x v) → (others : List Value) × Holds out limit v others × AllZip Same others a.items }
{}

/// The items of an input have one canonical form.
pub fn one_form<O: KeyOrder>()
    ensures { (k out : Kind) (limit : ℕ) (x v w : List ℕ) → length x ≤ most_bytes → (a : IsCanonical O.order k out limit x v) → Canon O.order out a.items w → w ≡ v }
{}

/// It is the canonical form of valid items, of any depth, exactly if they are the same as those of
/// the input.
pub fn form_of_same<O: KeyOrder>()
    ensures { (k out : Kind) (limit : ℕ) (x v : List ℕ) (others : List Value) → length x ≤ most_bytes → (a : IsCanonical O.order k out limit x v) → AllByRecursion IsProper others → Canon O.order out others v ↔ AllZip Same a.items others }
{}

/// It is the canonical form of what it holds itself.
pub fn form_of_itself<O: KeyOrder>()
    ensures { (k out : Kind) (limit : ℕ) (x v : List ℕ) (others : List Value) → length x ≤ most_bytes → IsCanonical O.order k out limit x v → Holds out limit v others → Canon O.order out others v }
{}

/// An input holds at most one list of items, and holds it under each larger limit too.
#[tactic(auto, using(crate::proofs::Held::Known::holds_more))]
pub fn one_list()
    ensures one { (k : Kind) (limit : ℕ) (x : List ℕ) (vs ws : List Value) → Holds k limit x vs → Holds k limit x ws → vs ≡ ws }
    ensures larger { (k : Kind) (limit most : ℕ) (x : List ℕ) (vs : List Value) → limit ≤ most → Holds k limit x vs → Holds k most x vs }
{}

/// What was read to its end of a reader that says its bytes is all that it had.
#[tactic(auto, using(crate::proofs::Held::Known::whole))]
pub fn whole_input()
    ensures { (x input : List ℕ) (after : Option (List ℕ)) → Consumes (Some x) after input → IsAtEnd after → input ≡ x }
{}

/// An input that holds items, and is no longer than allowed, is refused only where the reader
/// failed or memory was refused. So is the loading of one that spells nodes, whether they mean
/// items or not.
#[tactic(auto, using(crate::proofs::Held::Known::nodes_loaded))]
pub fn held_input()
    ensures items { (k : Kind) (limit most : ℕ) (x : List ℕ) (vs : List Value) (why : EngineFault) → length x ≤ most → Holds k limit x vs → IsRefused k limit most x why → IsNoRefusal why }
    ensures nodes { (k : Kind) (limit most : ℕ) (x : List ℕ) (nodes : List Tree) (why : EngineFault) → length x ≤ most → Spells k limit x nodes → LoadAnswers k limit most x (Err why) → IsNoRefusal why }
{}
