//! Reading the tokens of a text, in one list or one by one.

ghost use Rattle.std.specs.Prelude.{◌≤◌, length, IfOk, IfErr};
ghost use Rattle.cborn_lex.specs.Cited.{HasTokens, IsTokenFrom, HasNoTokens, HasNoTokenFrom, IsNextBareToken};

use crate::classes::{BareToken, Profile, Token};
use crate::faults::LexFault;
use crate::fronts::{Front, first_of};
use crate::slices::{is_white, rest_of};
use std::alloc::Global;

/// The tokens of `text` in this profile, in their order (RFC 8949 section 8, RFC 8610 appendix G).
/// Nothing else is in the text but white space and comments.
///
/// # Errors
/// `Refused` if the text has a lexical fault, with its offset, in bytes from the start of the text,
/// and the reason. `OutOfMemory` if memory was refused.
pub fn tokens(alloc: Global, profile: Profile, text: &str) -> Result<Vec<Token>, LexFault>
    ensures ok { IfOk result (λ v. HasTokens profile text.now v.items) }
    ensures refused { IfErr result (λ e. HasNoTokens profile text.now e) }
{
    let mut found = Vec::new(alloc);
    let mut at = 0;
    'tokens: while let Some(token) = token_from(alloc, profile, text, at)? {
        at = token.stop;
        found.push(token)?;
    }
    Ok(found)
}

/// The first token of `text` from the offset `at` on, in bytes (RFC 8949 section 8, RFC 8610
/// appendix G). `None` if only white space and comments are left. From 0 on, and then from the
/// `stop` of each token, it gives one by one what [`tokens`] gives in a list.
///
/// # Errors
/// `Refused` if a lexical fault is next from `at` on, with its offset, in bytes from the start of
/// the text, and the reason. `OutOfMemory` if memory was refused.
pub fn token_from(
    alloc: Global,
    profile: Profile,
    text: &str,
    at: u64,
) -> Result<Option<Token>, LexFault>
    requires { at ≤ length text.now }
    ensures ok { IfOk result (λ o. IsTokenFrom profile text.now at o) }
    ensures refused { IfErr result (λ e. HasNoTokenFrom profile text.now at e) }
{
    let mut number: u128 = 0;
    let mut content = Vec::new(alloc);
    match next_token(alloc, profile, text, at as usize, &mut number, &mut content)? {
        Some(token) => Ok(Some(Token {
            start: token.start as u64,
            stop: token.stop as u64,
            class: token.kind.into_class(number, content),
        })),
        None => Ok(None),
    }
}

/// The first token of `text` from the offset `at` on, in bytes (RFC 8949 section 8, RFC 8610
/// appendix G). `None` if only white space and comments are left. The number of an integer or a tag
/// is put into `number`, and the bytes of a string are appended to `out`: so a token is small, and
/// nothing is copied twice. Any other token leaves `out` unchanged.
///
/// # Errors
/// `Refused` if a lexical fault is next from `at` on, with its offset, in bytes from the start of
/// the text, and the reason. `OutOfMemory` if memory was refused. After an error a part of a string
/// may follow what `out` had.
#[tactic(auto, using(crate::proofs::WholeTexts::Progress::after_white, crate::proofs::WholeTexts::Progress::after_blank, crate::proofs::WholeTexts::Progress::reads_at, crate::proofs::WholeTexts::Progress::then_token, crate::proofs::WholeTexts::Progress::then_end))]
#[inline(always)]
pub fn next_token(
    alloc: Global,
    profile: Profile,
    text: &str,
    at: usize,
    number: &mut u128,
    out: &mut Vec<u8>,
) -> Result<Option<BareToken>, LexFault>
    requires { at ≤ length text.now }
    ensures ok { IfOk result (λ o. IsNextBareToken profile text.now at o number.new out.old.items out.new.items) }
    ensures refused { IfErr result (λ e. HasNoTokenFrom profile text.now at e) }
{
    let bytes = text.as_bytes();
    let mut place = at;
    while place < bytes.len() {
        if is_white(bytes[place]) {
            place += 1;
        } else {
            let (front, more) = first_of(alloc, profile, rest_of(bytes, place), number, out)?;
            let n = more + 1;
            match front {
                Front::WhiteSpace => {}
                Front::Read(kind) => return Ok(Some(BareToken {
                    start: place,
                    stop: place + n,
                    kind,
                })),
                Front::Bad(reason) => return Err(LexFault::Refused {
                    place: place as u64,
                    reason,
                }),
            }
            place += n;
        }
    }
    Ok(None)
}
