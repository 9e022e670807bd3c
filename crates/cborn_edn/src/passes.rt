//! A whole text, read token by token: its nodes, handed to a visitor, or why it has none.

ghost use Rattle.std.specs.Prelude.{◌≡◌, ◌≤◌, ◌<◌, ◌^◌, ◌⊎◌, ℕ, List, [], length, IfOk, IfErr, OnOk};
ghost use Rattle.cborn_edn.specs.Cited.{IsNoNotation, Notates};
ghost use Rattle.cborn_edn.specs.devices.Common.{State, start, Reads, IsReading, IsInside, Judged, Last, AtEnd, of_text, Input, Shows, lexical, reach};
ghost use Rattle.cborn_edn.specs.Common.{Tree, trees, FitsAll, top, no_part, TokensBetween, HasNoTokenFrom, Token, LexFault as LexStop, class_of};
ghost use Rattle.cborn_edn.specs.declared.faults.EdnFault.TheVariants.{Refused};
ghost use Rattle.cborn_edn.specs.Spelling.{IsSpelling};
ghost use Rattle.cborn_edn.specs.devices.Reading as pure;

use crate::numbers::is_small;
use crate::quick::take_common;
use crate::quick_items::take_marked;
use crate::spellers::Spellers;
use crate::states::{Chunks, Here, Level, Opened, Phase, Source, Writer};
use crate::steps::take;
use crate::strings::end_item;
use crate::{EdnFault, EdnReason, Result};
use cborn_lex::{Kind, Profile, next_token};
use cborn_model::{Limit, Visitor};
use cborn_wire::Speller;
use std::alloc::Global;

/// The bytes that the nodes spell which `text` notates in that profile of the notation, none of
/// them deeper than `limit` (RFC 8949 section 8, RFC 8610 appendix G). The text is read once.
///
/// # Errors
/// `Lex` if a part of the text is no token. Else `Refused` with the syntax error: the offset of the
/// first token with which no text of the grammar within the limit goes on, or of the text's end, in
/// bytes from the start of the text. Else `Refused` with the meaning error of the lowest place, and
/// there of the lowest number. `OutOfMemory` if memory was refused.
pub fn read_text(
    alloc: Global,
    limit: Limit,
    profile: Profile,
    text: &str,
) -> Result<Vec<u8>, EdnFault>
    ensures spelled { IfOk result (λ bytes. IsSpelling profile limit text.now bytes.items) }
    ensures refused { IfErr result (IsNoNotation profile limit text.now) }
{
    // Most texts spell fewer bytes than half of theirs.
    let mut speller = Speller::with_room(alloc, text.len() / 2)?;
    visit_text(alloc, limit, profile, text, &mut speller)?;
    Ok(speller.finish())
}

/// Hands the nodes that `text` notates in that profile of the notation, none of them deeper than
/// `limit`, to a visitor that was handed nothing (RFC 8949 section 8, RFC 8610 appendix G). The
/// place of a node is the offset of its first token, and that of a chunk the offset of its first
/// piece, in bytes from the start of the text. How many items an array has, or pairs a map, is
/// known at its end. The text is read once.
///
/// # Errors
/// Those of [`read_text`]. Then nothing is known of the visitor.
pub fn visit_text<V: Visitor>(
    alloc: Global,
    limit: Limit,
    profile: Profile,
    text: &str,
    visitor: &mut V,
) -> Result<(), EdnFault>
    requires { V.holds visitor.old (top []) no_part }
    ensures nodes { OnOk result ((nodes : List Tree) × V.holds visitor.new (top nodes) no_part × Notates profile limit text.now (trees nodes) × FitsAll (trees nodes)) }
    ensures refused { IfErr result (IsNoNotation profile limit text.now) }
{
    let _len = bounded_len(text);
    let source = Source {
        limit: limit.get(),
        profile,
        text,
    };
    let mut writer = Writer::new(alloc);
    let here = read_tokens(alloc, source, &mut writer, visitor)?;
    finish(source, here, writer, visitor)
}

impl Writer {
    /// Nothing is open.
    pub(crate) fn new(alloc: Global) -> Writer
        ensures shows { Shows Here.FIRST result result.pieces.items start }
        ensures spellers { result.spellers ≡ [] }
    {
        Writer {
            pieces: Vec::new(alloc),
            start: 0,
            brackets: Opened::new(alloc),
            around: Opened::new(alloc),
            spellers: Spellers::new(alloc),
            string: None,
            chunks: None,
            simple: 0,
            error: None,
        }
    }
}

/// Reads all tokens of the text, and gives where the reader then is.
fn read_tokens<V: Visitor>(
    alloc: Global,
    source: Source,
    writer: &mut Writer,
    visitor: &mut V,
) -> Result<Here, EdnFault>
    requires { IsReading (V.holds visitor.old) source Here.FIRST writer.old }
    ensures read { IfOk result (λ here. IsReading (V.holds visitor.new) source.entry here writer.new) }
    ensures whole { IfOk result (λ here. here.at ≡ length source.entry.text.now) }
    ensures refused { IfErr result (IsNoNotation source.entry.profile source.entry.limit source.entry.text.now) }
{
    let mut here = Here::FIRST;
    'tokens: while here.at < source.text.len() {
        if !take_common(source, &mut here, writer, visitor)? && here.at < source.text.len() {
            let mut next = here;
            take_rare(
                alloc,
                source.limit,
                source.profile,
                source.text,
                &mut next,
                writer,
                visitor,
            )?;
            here = next;
        }
    }
    Ok(here)
}

/// Takes one token, or the white space up to the text's end, where `take_common` takes nothing.
fn take_rare<V: Visitor>(
    alloc: Global,
    limit: u64,
    profile: Profile,
    text: &str,
    here: &mut Here,
    writer: &mut Writer,
    visitor: &mut V,
) -> Result<(), EdnFault>
    requires { IsInside (V.holds visitor.old) (of_text limit profile text) here.old writer.old }
    ensures read { OnOk result (IsReading (V.holds visitor.new) (of_text limit profile text.entry) here.new writer.new) }
    ensures further { OnOk result (here.old.at < here.new.at) }
    ensures refused { IfErr result (IsNoNotation profile limit text.now) }
{
    let source = Source {
        limit,
        profile,
        text,
    };
    if take_marked(source, here, writer, visitor)? || here.at == text.len() {
        return Ok(());
    }
    let (at, phase) = (here.at, here.phase);
    let mut number: u128 = 0;
    let found = next_token(alloc, profile, text, at, &mut number, &mut writer.pieces)?;
    let Some(token) = found else {
        here.at = text.len();
        return Ok(());
    };
    let reach = reach_of(writer.brackets.count(), token.kind, number);
    let trailing = is_trailing_comma(profile, phase, token.kind);
    let taken = take(token, number, here, writer, visitor)?;
    if let Some(reason) = judge(trailing, taken, reach, limit) {
        let fault = refused(token.start, reason);
        return Err(first_fault(alloc, profile, text, token.stop, fault));
    }
    here.at = token.stop;
    Ok(())
}

/// Why no text of the grammar within the limit goes on with a token, if none does. `trailing` says
/// that it ends a bracket after a comma in profile 1, `taken` that the grammar has such a token
/// there, and `reach` how deep it goes.
#[inline(always)]
fn judge(trailing: bool, taken: bool, reach: u64, limit: u64) -> Option<EdnReason>
    ensures { Judged trailing taken reach limit result }
{
    if trailing || !taken {
        return Some(EdnReason::UnexpectedToken);
    }
    if reach > limit {
        return Some(EdnReason::TooDeep);
    }
    None
}

/// The length of a text in bytes, which is below 2^63.
#[inline(always)]
fn bounded_len(text: &str) -> usize
    ensures len { result ≡ length text.now }
    ensures small { result < 2 ^ 63 }
{
    text.len()
}

/// Looks at the text's end whether there is a meaning error, or the text has to go on.
fn finish<V: Visitor>(
    source: Source,
    here: Here,
    writer: Writer,
    visitor: &mut V,
) -> Result<(), EdnFault>
    requires reading { IsReading (V.holds visitor.old) source here writer }
    requires whole { here.at ≡ length source.text.now }
    ensures nodes { OnOk result ((nodes : List Tree) × V.holds visitor.new (top nodes) no_part × Notates source.entry.profile source.entry.limit source.entry.text.now (trees nodes) × FitsAll (trees nodes)) }
    ensures refused { IfErr result (IsNoNotation source.entry.profile source.entry.limit source.entry.text.now) }
{
    if !may_end(here.phase, here.level, writer.chunks) {
        return Err(refused(source.text.len(), EdnReason::UnexpectedEnd));
    }
    let mut writer = writer;
    end_last(here, &mut writer, visitor)?;
    match writer.error {
        Some(error) => Err(EdnFault::Refused {
            place: error.place,
            reason: error.reason,
        }),
        None => Ok(()),
    }
}

/// Whether a text may end in this phase: no bracket is open, and nothing else has to follow.
fn may_end(phase: Phase, level: Level, chunks: Option<Chunks>) -> bool
    ensures { result ≡ pure.may_end phase level chunks }
{
    match (phase, level) {
        (Phase::Wants, Level::Outside) => true,
        (Phase::Has, Level::Outside) => true,
        (Phase::Builds, Level::Outside) => chunks.is_none(),
        _ => false,
    }
}

/// Ends the last string, if the text ends with one.
fn end_last<V: Visitor>(here: Here, writer: &mut Writer, visitor: &mut V) -> Result
    requires { (s : State) × (t : Input) × Last s t × Reads (V.holds visitor.old) here writer.old writer.old.pieces.items s }
    ensures { OnOk result ((s : State) (t : Input) → Last s t → Reads (V.holds visitor.old) here writer.old writer.old.pieces.items s → AtEnd (V.holds visitor.new) t writer.new) }
{
    let mut here = here;
    if ends_string(here.phase) {
        return end_item(&mut here, writer, visitor);
    }
    Ok(())
}

/// Whether pieces of a string were read last.
#[inline(always)]
fn ends_string(phase: Phase) -> bool
    ensures { result ≡ pure.ends_string phase }
{
    matches!(phase, Phase::Builds)
}

/// Whether a token is a bracket that ends after a comma, which profile 1 doesn't allow.
#[inline(always)]
fn is_trailing_comma(profile: Profile, phase: Phase, kind: Kind) -> bool
    ensures { result ≡ pure.is_trailing_comma profile phase kind }
{
    match (profile, phase, kind) {
        (Profile::One, Phase::WantsMore, Kind::ArrayClose | Kind::MapClose) => true,
        (Profile::One, Phase::WantsMore, Kind::EmbedClose(_)) => true,
        _ => false,
    }
}

/// The nesting depth that a token needs inside `levels` open brackets: one more for a bracket that
/// opens, and `levels` for an integer. An integer outside 64 bits is a tag over a byte string, so
/// it needs one more, too. 0 for any other token.
#[inline(always)]
fn reach_of(levels: u64, kind: Kind, number: u128) -> u64
    requires { levels < 2 ^ 63 }
    ensures { (x : List ℕ) → result ≡ reach levels (class_of kind number x) }
{
    match kind {
        Kind::ArrayOpen(_) | Kind::MapOpen(_) | Kind::EmbedOpen | Kind::TagOpen(_) => levels + 1,
        Kind::Number { negative, .. } if is_small(negative, number) => levels,
        Kind::Number { .. } => levels + 1,
        _ => 0,
    }
}

/// The syntax error at `place`, for this reason.
fn refused(place: usize, reason: EdnReason) -> EdnFault
    ensures { result ≡ Refused place reason }
{
    let place = place as u64;
    EdnFault::Refused { place, reason }
}

/// The lexical fault from the offset `at` on, if there is one, and else the syntax error `fault`.
#[cold]
#[inline(never)]
fn first_fault(alloc: Global, profile: Profile, text: &str, at: usize, fault: EdnFault) -> EdnFault
    requires { at ≤ length text.now }
    ensures { ((tokens : List Token) × TokensBetween profile text.now at (length text.now) tokens × (result ≡ fault)) ⊎ ((stop : LexStop) × HasNoTokenFrom profile text.now at stop × (result ≡ lexical stop)) }
{
    let mut content = Vec::new(alloc);
    let mut number: u128 = 0;
    let mut place = at;
    'tokens: loop {
        content.clear();
        let token = match next_token(alloc, profile, text, place, &mut number, &mut content) {
            Ok(Some(token)) => token,
            Ok(None) => return fault,
            Err(stop) => return EdnFault::from(stop),
        };
        place = token.stop;
    }
}
