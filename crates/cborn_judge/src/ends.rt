//! How containers end while items are encoded, and what is wrong with them.

ghost use Rattle.std.specs.Prelude.{◌≡◌, ◌++◌, ◌∷◌, ◌<◌, ◌^◌, ℕ, List, [], length, take, drop, true, false, Option, None, Some, IfOk, IfSome, OnOk};
ghost use Rattle.cborn_judge.specs.Common.{Ordering, AreBytes, code, IsLeastHead, Tree, Partial, Opening, inside, put, no_part, IsFree, Ends, built, a_tag, IsProper, Value, Det};
ghost use Rattle.cborn_model.specs.Value as value;
ghost use Rattle.cborn_det.specs.Appending.{Replaces};
ghost use Rattle.cborn_judge.specs.shared.Judged.{IsEarliestFlaw};
ghost use Rattle.cborn_judge.specs.devices.Encoding.{head_of, FindsDescent, IsSound, AreEncodedAs, Finds};
ghost use Rattle.cborn_judge.specs.devices.Marks.{marks_of, AreAllHinted};
ghost use Rattle.cborn_judge.specs.devices.Encoders.{EndsWell, EndsBignum, Closes, HasEnded, IsBignumFound, StandsIn, IsHeld};
ghost use Rattle.cborn_judge.specs.declared.levels.Container.TheVariants as container;

use crate::defects::Defect;
use crate::encoders::{Encoder, Encodings};
use crate::faults::{Flaw, InvalidReason, keep, keep_earlier, may_precede};
use crate::levels::{Container, Level};
use crate::spellings::{ended_defect, head_defect, loose_defect};
use cborn_det::{push_integer, set_head};
use cborn_model::{KeyOrder, Result, Size, StringKind, Width, earliest, without_zeros};

/// What a container adds to the flaws and the defects when it ends.
#[derive(Clone, Copy)]
pub(crate) struct Findings {
    pub(crate) flaw: Option<Flaw>,
    pub(crate) defect: Option<Defect>,
}

impl Encodings {
    /// Leaves the innermost container, which has ended, and counts it in the one around it.
    #[inline(always)]
    pub(crate) fn leave(&mut self) -> Result<()>
        ensures held { OnOk result ((order : List ℕ → List ℕ → Ordering) (f : Partial) (o : Opening) (ts : List Tree) (found : Findings) → IsFree f → HasEnded order self.old f o ts found → StandsIn order self.new (put f (built o ts))) }
    {
        let Level { place, start, .. } = self.innermost;
        self.step_out();
        self.put(place, start)
    }

    /// Makes the container around the innermost the innermost; the input stays.
    #[inline(always)]
    fn step_out(&mut self)
        ensures left { (os : List Level) (l : Level) → self.old.outer.items ≡ os ++ l ∷ [] → (self.new.outer.items ≡ os) × (self.new.innermost ≡ l) }
        ensures kept { (self.new.out ≡ self.old.out) × (self.new.pairs ≡ self.old.pairs) }
    {
        if let Some(around) = self.outer.pop() {
            self.innermost = around;
        }
    }
}

impl<O: KeyOrder> Encoder<O> {
    /// Ends the innermost container, whatever it is.
    #[inline(never)]
    pub(crate) fn close_slowly(&mut self) -> Result<()>
        ensures held { OnOk result (Closes O.order self.old self.new) }
    {
        match self.encodings.innermost.container {
            Container::Input => Ok(()),
            Container::Array { size, count } => self.end_array(size, count),
            Container::Map { size, count } => self.end_map(size, count),
            Container::Tag { width, number } => self.end_tag(width, number),
            Container::Chunks(kind) => self.end_chunks(kind),
        }
    }

    /// Ends an array.
    #[inline(always)]
    pub(crate) fn end_array(&mut self, size: Size, count: Option<u64>) -> Result<()>
        requires { self.old.encodings.innermost.container ≡ container.Array size count }
        ensures held { OnOk result (Closes O.order self.old self.new) }
    {
        let level = self.encodings.innermost;
        end_head(level, level.count, level.flawed, &mut self.encodings.out)?;
        let defect = ended_defect(level.place, size, count, level.count);
        self.leave(Findings { flaw: None, defect })
    }

    /// Ends a map.
    #[inline(never)]
    pub(crate) fn end_map(&mut self, size: Size, count: Option<u64>) -> Result<()>
        requires { self.old.encodings.innermost.container ≡ container.Map size count }
        ensures held { OnOk result (Closes O.order self.old self.new) }
    {
        let Level { flawed, pairs, .. } = self.encodings.innermost;
        let e = &mut self.encodings;
        let descent = e.pairs.descent::<O>(pairs, &e.out);
        if !flawed && descent.is_none() {
            return self.end_rising(size, count);
        }
        self.end_unsorted(size, count, descent)
    }

    /// Ends a map that means something, and whose keys rise.
    #[inline(always)]
    pub(crate) fn end_rising(&mut self, size: Size, count: Option<u64>) -> Result<()>
        requires map { self.old.encodings.innermost.container ≡ container.Map size count }
        requires sound { self.old.encodings.innermost.flawed ≡ false }
        requires rising { FindsDescent O.order self.old.encodings.innermost.content (drop self.old.encodings.innermost.pairs (marks_of self.old.encodings.pairs)) self.old.encodings.out.items None }
        ensures held { OnOk result (Closes O.order self.old self.new) }
    {
        let level = self.encodings.innermost;
        let len = self.encodings.pairs.count_from(level.pairs);
        self.encodings.pairs.truncate(level.pairs);
        end_head(level, len, false, &mut self.encodings.out)?;
        let defect = ended_defect(level.place, size, count, len);
        self.leave(Findings { flaw: None, defect })
    }

    /// Ends a map that is flawed, or whose keys don't rise. `fall` is the first defect of their order.
    #[inline(never)]
    fn end_unsorted(&mut self, size: Size, count: Option<u64>, fall: Option<Defect>) -> Result<()>
        requires map { self.old.encodings.innermost.container ≡ container.Map size count }
        requires hinted { AreAllHinted O.order self.old.encodings.out.items self.old.encodings.innermost.pairs self.old.encodings.pairs.marks }
        requires descent { FindsDescent O.order self.old.encodings.innermost.content (drop self.old.encodings.innermost.pairs (marks_of self.old.encodings.pairs)) self.old.encodings.out.items fall }
        ensures held { OnOk result (Closes O.order self.old self.new) }
    {
        let level = self.encodings.innermost;
        let e = &mut self.encodings;
        let len = e.pairs.count_from(level.pairs);
        let own = ended_defect(level.place, size, count, len);
        let flaw = e
            .pairs
            .arrange::<O>(level.pairs, level.content, &mut e.spare, &mut e.out)?;
        e.pairs.truncate(level.pairs);
        let is_flawed = level.flawed || flaw.is_some();
        end_head(level, len, is_flawed, &mut e.out)?;
        let defect = earliest(own, fall);
        self.leave(Findings { flaw, defect })
    }

    /// Ends a tag.
    #[inline(always)]
    pub(crate) fn end_tag(&mut self, width: Width, number: u64) -> Result<()>
        requires { self.old.encodings.innermost.container ≡ container.Tag width number }
        ensures held { OnOk result (Closes O.order self.old self.new) }
    {
        let level = self.encodings.innermost;
        let spare = &mut self.encodings.spare;
        let found = end_tag(level, width, number, spare, &mut self.encodings.out)?;
        self.leave(found)
    }

    /// Ends a string of indefinite length.
    #[inline(never)]
    fn end_chunks(&mut self, kind: StringKind) -> Result<()>
        requires { self.old.encodings.innermost.container ≡ container.Chunks kind }
        ensures held { OnOk result (Closes O.order self.old self.new) }
    {
        let level = self.encodings.innermost;
        let len = self.encodings.out.len().saturating_sub(level.content) as u64;
        end_head(level, len, level.flawed, &mut self.encodings.out)?;
        let defect = ended_defect(level.place, Size::Endless, None, len);
        self.leave(Findings { flaw: None, defect })
    }

    /// Leaves the container that has ended, and keeps what it adds: as a rule nothing.
    #[inline(always)]
    fn leave(&mut self, found: Findings) -> Result<()>
        ensures held { OnOk result ((f : Partial) (o : Opening) (ts : List Tree) → IsFree f → Ends o ts → HasEnded O.order self.old.encodings f o ts found → Finds O.order (inside f o ts) self.old.flaw self.old.defect → IsHeld O.order self.new (put f (built o ts)) no_part) }
    {
        keep(&mut self.flaw, found.flaw);
        match found.defect {
            Some(defect) if may_precede(self.defect, defect) => self.leave_loose(defect),
            _ => self.encodings.leave(),
        }
    }

    /// What [`Encoder::leave`] does, once a flaw is kept, where a defect is.
    #[cold]
    #[inline(never)]
    fn leave_loose(&mut self, defect: Defect) -> Result<()>
        ensures held { OnOk result ((f : Partial) (o : Opening) (ts : List Tree) (flaw : Option Flaw) (found : Findings) → IsFree f → Ends o ts → found.defect ≡ Some defect → IsEarliestFlaw flaw found.flaw self.old.flaw → HasEnded O.order self.old.encodings f o ts found → Finds O.order (inside f o ts) flaw self.old.defect → IsHeld O.order self.new (put f (built o ts)) no_part) }
    {
        keep_earlier(&mut self.defect, defect);
        self.encodings.leave()
    }
}

/// Ends what stands of a container: nothing is left of it if it is flawed, else it has its head.
#[tactic(auto, using(crate::proofs::Common::are_bytes))]
#[inline(always)]
fn end_head(level: Level, len: u64, is_flawed: bool, out: &mut Vec<u8>) -> Result<()>
    ensures ranges { (len < 2 ^ 64) × AreBytes out.new.items }
    ensures flawed { OnOk result (is_flawed ≡ true → out.new.items ≡ take level.start out.old.items) }
    ensures known { OnOk result (is_flawed ≡ false → (n : ℕ) → (head_of level.container).1 ≡ Some n → out.new.items ≡ out.old.items) }
    ensures set { OnOk result (is_flawed ≡ false → (head_of level.container).1 ≡ None → level.start < length out.old.items → Replaces (IsLeastHead (code (head_of level.container).0) len) level.start out.old.items out.new.items) }
{
    if is_flawed {
        out.truncate(level.start);
        return Ok(());
    }
    let (major, count) = level.container.head();
    if count.is_none() && level.start < out.len() {
        set_head(major, len, level.start, out)?;
    }
    Ok(())
}

/// Ends a tag. `spare` is room for the bytes of a bignum.
#[inline(always)]
fn end_tag(
    level: Level,
    width: Width,
    number: u64,
    spare: &mut Vec<u8>,
    out: &mut Vec<u8>,
) -> Result<Findings>
    ensures { IfOk result (λ found. (order : List ℕ → List ℕ → Ordering) → EndsWell order level (a_tag level.place width number) [] out.old.items out.new.items found) }
{
    let long = head_defect(level.place, width, number);
    if number == 2 || number == 3 {
        let inner = end_bignum(level, number == 3, spare, out)?;
        let defect = earliest(long, inner.defect);
        return Ok(Findings { defect, ..inner });
    }
    if level.flawed {
        out.truncate(level.start);
    }
    let defect = long;
    Ok(Findings { flaw: None, defect })
}

/// Ends tag 2, or tag 3 if it is `negative`: the integer takes its place. Its head isn't judged.
#[inline(never)]
fn end_bignum(
    level: Level,
    negative: bool,
    spare: &mut Vec<u8>,
    out: &mut Vec<u8>,
) -> Result<Findings>
    ensures { IfOk result (λ found. (order : List ℕ → List ℕ → Ordering) → EndsBignum order level negative out.old.items out.new.items found) }
{
    let place = level.place;
    let bignum = bignum_of(level, out, spare)?;
    out.truncate(level.start);
    let Some(bignum) = bignum else {
        let reason = InvalidReason::BadBignum;
        let flaw = Some(Flaw { place, reason });
        return Ok(Findings { flaw, defect: None });
    };
    push_integer(negative, spare, out)?;
    let defect = bignum.defect;
    Ok(Findings { flaw: None, defect })
}

/// What is wrong with a bignum, but for its head.
#[derive(Clone, Copy)]
struct Bignum {
    defect: Option<Defect>,
}

/// The bignum in a tag, its number in `magnitude`; `None` if the content is no byte string.
fn bignum_of(level: Level, out: &[u8], magnitude: &mut Vec<u8>) -> Result<Option<Bignum>>
    ensures { IfOk result (λ found. (order : List ℕ → List ℕ → Ordering) (t : Tree) (y z : List ℕ) → out.now ≡ y ++ z → level.content ≡ length y → IsSound level.flawed (t ∷ []) → (level.flawed ≡ false → AreEncodedAs order (t ∷ []) z) → IsBignumFound level.place t magnitude.new.items found) }
{
    if level.flawed {
        return Ok(None);
    }
    let code = out.get(level.content..).unwrap_or(&[]);
    let Some(bytes) = string_content(code) else {
        return Ok(None);
    };
    magnitude.clear();
    magnitude.extend_from_slice(without_zeros(bytes))?;
    let defect = loose_defect(level.place, bytes);
    Ok(Some(Bignum { defect }))
}

/// The content of the byte string with this encoding; `None` if it is that of another item.
fn string_content(code: &[u8]) -> Option<&[u8]>
    ensures some { IfSome result (λ bytes. (order : List ℕ → List ℕ → Ordering) (v : Value) → IsProper v → Det order v code.now → v ≡ value.bytes bytes.now) }
    ensures none { result ≡ None → (order : List ℕ → List ℕ → Ordering) (b : List ℕ) → IsProper (value.bytes b) → Det order (value.bytes b) code.now → ⊥ }
{
    let first = *code.first()?;
    if first / 32 != 2 {
        return None;
    }
    let head_len = match first % 32 {
        24 => 2,
        25 => 3,
        26 => 5,
        27 => 9,
        _ => 1,
    };
    code.get(head_len..)
}
