//! Laws of the tokens of a text: each function does nothing, and its contract is a theorem.

ghost use Rattle.std.specs.Prelude.{◌≡◌, ◌↔◌, Some, None, ℕ, ◌<◌, List, [], ◌++◌, ◌⊎◌, length, drop};
ghost use Rattle.cborn_lex.specs.Common.{IsBytes, Class, Token, LexFault};
ghost use Rattle.cborn_lex.specs.Cited.{WhiteSpace, Read, Bad, Reads, Takes, HasTokens, TokensBetween, Fails, BeginsNothing, FailsAt, HasNoTokens, HasNoTokenFrom, SpansRise};

use crate::classes::Profile;
use crate::faults::LexReason;

/// A text has one list of tokens or one lexical fault. It never has both, and never two of either.
pub fn one_answer()
    ensures some { (profile : Profile) (text : List ℕ) → IsBytes text → ((ts : List Token) × HasTokens profile text ts) ⊎ ((p : ℕ) × (r : LexReason) × FailsAt profile text p r) }
    ensures not_both { (profile : Profile) (text : List ℕ) (ts : List Token) (p : ℕ) (r : LexReason) → HasTokens profile text ts → FailsAt profile text p r → ⊥ }
    ensures one_list { (profile : Profile) (text : List ℕ) (ts us : List Token) → HasTokens profile text ts → HasTokens profile text us → ts ≡ us }
    ensures one_stop { (profile : Profile) (text : List ℕ) (p q : ℕ) (r s : LexReason) → FailsAt profile text p r → FailsAt profile text q s → (p ≡ q) × (r ≡ s) }
{}

/// The tokens of a text aren't empty, rise and don't overlap, and end within it.
#[tactic(auto, using(crate::proofs::WholeTexts::Chains::spans_rise))]
pub fn spans_rise()
    ensures { (profile : Profile) (text : List ℕ) (ts : List Token) → HasTokens profile text ts → SpansRise 0 ts (length text) }
{}

/// A text fails at an offset inside it, where no white space, comment or token begins.
pub fn no_token_at_stop()
    ensures inside { (profile : Profile) (text : List ℕ) (p : ℕ) (r : LexReason) → FailsAt profile text p r → p < length text }
    ensures no_piece { (profile : Profile) (text : List ℕ) (p : ℕ) (r : LexReason) → FailsAt profile text p r → BeginsNothing profile (drop p text) }
{}

/// A text of profile 1 has the same tokens, at the same places, in profile 2.
#[tactic(auto, using(crate::proofs::WholeTexts::Chains::both_profiles))]
pub fn both_profiles()
    ensures { (text : List ℕ) (ts : List Token) → HasTokens Profile.One text ts → HasTokens Profile.Two text ts }
{}

/// Tokens read one by one, from 0 to the end or to where the text fails, are those of the text.
#[tactic(auto, using(crate::proofs::WholeTexts::Progress::nothing, crate::proofs::WholeTexts::Progress::joins, crate::proofs::WholeTexts::Progress::whole_text, crate::proofs::WholeTexts::Progress::whole_stop, crate::proofs::WholeTexts::Progress::stops))]
pub fn token_by_token()
    ensures begins { (profile : Profile) (text : List ℕ) (n : ℕ) → TokensBetween profile text n n [] }
    ensures joins { (profile : Profile) (text : List ℕ) (l m n : ℕ) (ts us : List Token) → TokensBetween profile text l m ts → TokensBetween profile text m n us → TokensBetween profile text l n (ts ++ us) }
    ensures whole { (profile : Profile) (text : List ℕ) (ts : List Token) → TokensBetween profile text 0 (length text) ts → HasTokens profile text ts }
    ensures whole_stop { (profile : Profile) (text : List ℕ) (e : LexFault) → HasNoTokenFrom profile text 0 e → HasNoTokens profile text e }
    ensures stops { (profile : Profile) (text : List ℕ) (m n : ℕ) (ts : List Token) (e : LexFault) → TokensBetween profile text m n ts → HasNoTokenFrom profile text n e → HasNoTokenFrom profile text m e }
{}

/// `Reads` and `Takes` agree on white space and tokens. `Reads` is a device of the proofs.
pub fn good_tokens()
    ensures white_space { (profile : Profile) (s z : List ℕ) → Reads profile s z WhiteSpace ↔ Takes profile s z None }
    ensures token { (profile : Profile) (s z : List ℕ) (k : Class) → Reads profile s z (Read k) ↔ Takes profile s z (Some k) }
{}

/// `Reads` and `Fails` agree on lexical faults and their reasons. `Reads` is a device of the
/// proofs.
#[tactic(auto, using(crate::proofs::GoodFronts::taken, crate::proofs::BadBack::fails))]
pub fn bad_tokens()
    ensures front { (profile : Profile) (s z : List ℕ) (r : LexReason) → Reads profile s z (Bad r) → Fails profile (s ++ z) r }
    ensures back { (profile : Profile) (y : List ℕ) (r : LexReason) → Fails profile y r → (s : List ℕ) × (z : List ℕ) × (y ≡ s ++ z) × Reads profile s z (Bad r) }
{}
