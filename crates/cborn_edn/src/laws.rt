//! Laws of the notation: theorems of its definitions alone. Each function does nothing, and its
//! contract is a theorem.

ghost use Rattle.std.specs.Prelude.{◌≡◌, ℕ, ◌^◌, ◌<◌, ◌≤◌, true, List, map, length, ◌⊎◌, ◌↔◌};
ghost use Rattle.cborn_edn.specs.Common.{is_utf8, Trees, depth_all, FitsAll, spelled_all, Profile, One as ProfileOne, Two as ProfileTwo, Token, HasTokens, FailsAt, EdnReason, MeaningError};
ghost use Rattle.cborn_edn.specs.devices.Common.{tokens_of_input, Parsed};
ghost use Rattle.cborn_edn.specs.Cited.{AreShowable, Shown, shown_lines, IsText, Notates, HasTree, IsSyntaxError, HasMeaningError, HasSyntaxError};
ghost use Rattle.cborn_model.specs.Bytes.{AreBytes};
ghost use Rattle.cborn_model.specs.Value.{Values};
ghost use Rattle.cborn_model.specs.Meaning.{AllMean};
ghost use Rattle.cborn_lex.specs.declared.faults.LexReason.{LexReason};
ghost use Rattle.cborn_edn.specs.ReadingBack.{unplaced_token, notated_input, unplaced_all};
ghost use Rattle.cborn_edn.specs.Starts.{spots_all, IsRising};

/// Tokens are a text of the grammar in at most one way, with the same nodes and meaning errors in
/// each profile and within each limit.
#[tactic(auto, using(crate::proofs::Short::Facts::one_text))]
pub fn one_text()
    ensures { (profile other : Profile) (limit most : ℕ) (tokens : List Token) (nodes others : Trees) (errors faults : List MeaningError) → IsText profile limit tokens nodes errors → IsText other most tokens others faults → (nodes ≡ others) × (errors ≡ faults) }
{}

/// Tokens are a text of the grammar within the limit, or have one syntax error. Both never hold,
/// and there are never two syntax errors. `end` is the length of their text.
pub fn one_answer()
    ensures some { (profile : Profile) (limit end : ℕ) (tokens : List Token) → HasTree profile limit tokens ⊎ ((p : ℕ) × (r : EdnReason) × IsSyntaxError profile limit end tokens p r) }
    ensures not_both { (profile : Profile) (limit end : ℕ) (tokens : List Token) (p : ℕ) (r : EdnReason) → HasTree profile limit tokens → IsSyntaxError profile limit end tokens p r → ⊥ }
    ensures not_two { (profile : Profile) (limit end : ℕ) (tokens : List Token) (p q : ℕ) (r s : EdnReason) → IsSyntaxError profile limit end tokens p r → IsSyntaxError profile limit end tokens q s → (p ≡ q) × (r ≡ s) }
{}

/// What is a text of the grammar within a limit is one within each larger limit.
pub fn larger_limit()
    ensures { (profile : Profile) (limit most : ℕ) (tokens : List Token) → limit ≤ most → HasTree profile limit tokens → HasTree profile most tokens }
{}

/// What is a text of the grammar in profile 1 is one in profile 2, with the same nodes, places and
/// meaning errors.
#[tactic(auto, using(crate::proofs::Short::Facts::both_texts))]
pub fn both_profiles()
    ensures { (limit : ℕ) (tokens : List Token) (nodes : Trees) (errors : List MeaningError) → IsText ProfileOne limit tokens nodes errors → IsText ProfileTwo limit tokens nodes errors }
{}

/// Nodes have a fixed notation exactly if each text string and text chunk among them is UTF-8. Its
/// text is UTF-8, and has the tokens of the fixed notation but for their places. Within each limit
/// that the nodes are within, it notates the nodes in both profiles, but for their places, so it
/// spells the same bytes. Within no limit it notates other nodes.
pub fn shown_text_reads_back()
    ensures texts { (nodes : Trees) → FitsAll nodes → (AreShowable nodes ↔ Shown nodes (shown_lines nodes)) }
    ensures utf8 { (nodes : Trees) (text : List ℕ) → FitsAll nodes → Shown nodes text → is_utf8 text ≡ true }
    ensures tokens { (profile : Profile) (nodes : Trees) (text : List ℕ) → FitsAll nodes → Shown nodes text → (tokens : List Token) × HasTokens profile text tokens × (map unplaced_token tokens ≡ tokens_of_input (notated_input nodes)) }
    ensures back { (profile : Profile) (limit : ℕ) (nodes : Trees) (text : List ℕ) → FitsAll nodes → Shown nodes text → depth_all nodes ≤ limit → (says : Trees) × Notates profile limit text says × (unplaced_all says ≡ unplaced_all nodes) × (spelled_all says ≡ spelled_all nodes) }
    ensures only { (profile : Profile) (limit : ℕ) (nodes : Trees) (text : List ℕ) (says : Trees) → FitsAll nodes → Shown nodes text → Notates profile limit text says → (unplaced_all says ≡ unplaced_all nodes) × (spelled_all says ≡ spelled_all nodes) }
{}

/// Nodes that are the same but for their places fit their widths alike, are equally deep, spell the
/// same bytes, mean the same items and have the same fixed notation.
pub fn places_aside()
    ensures fits { (nodes others : Trees) → unplaced_all nodes ≡ unplaced_all others → FitsAll nodes → FitsAll others }
    ensures depth { (nodes others : Trees) → unplaced_all nodes ≡ unplaced_all others → depth_all nodes ≡ depth_all others }
    ensures bytes { (nodes others : Trees) → unplaced_all nodes ≡ unplaced_all others → spelled_all nodes ≡ spelled_all others }
    ensures meaning { (nodes others : Trees) (items : Values) → unplaced_all nodes ≡ unplaced_all others → AllMean nodes items → AllMean others items }
    ensures text { (nodes others : Trees) (text : List ℕ) → unplaced_all nodes ≡ unplaced_all others → Shown nodes text → Shown others text }
{}

/// A text notates at most one list of nodes. It notates the same within each larger limit, and what
/// it notates in profile 1 it notates in profile 2, with the same places.
pub fn one_notation()
    ensures one { (profile : Profile) (limit most : ℕ) (text : List ℕ) (nodes others : Trees) → Notates profile limit text nodes → Notates profile most text others → nodes ≡ others }
    ensures larger { (profile : Profile) (limit most : ℕ) (text : List ℕ) (nodes : Trees) → limit ≤ most → Notates profile limit text nodes → Notates profile most text nodes }
    ensures both { (limit : ℕ) (text : List ℕ) (nodes : Trees) → Notates ProfileOne limit text nodes → Notates ProfileTwo limit text nodes }
{}

/// Each text has an answer: it notates nodes, or it has a lexical fault, a syntax error or a meaning
/// error. No text both notates nodes and has a meaning error, within any limits. The nodes that a
/// text of fewer than 2^56 bytes notates fit their widths and are within the limit.
pub fn short_text()
    ensures answered { (profile : Profile) (limit : ℕ) (text : List ℕ) → AreBytes text → ((nodes : Trees) × Notates profile limit text nodes) ⊎ (((p : ℕ) × (r : LexReason) × FailsAt profile text p r) ⊎ ((p : ℕ) × (r : EdnReason) × (HasSyntaxError profile limit text p r ⊎ HasMeaningError profile limit text p r))) }
    ensures no_error { (profile : Profile) (limit most : ℕ) (text : List ℕ) (nodes : Trees) (p : ℕ) (r : EdnReason) → Notates profile limit text nodes → HasMeaningError profile most text p r → ⊥ }
    ensures fits { (profile : Profile) (limit : ℕ) (text : List ℕ) (nodes : Trees) → AreBytes text → length text < 2 ^ 56 → Notates profile limit text nodes → FitsAll nodes × (depth_all nodes ≤ limit) }
{}

/// The places of the nodes and chunks that a text notates rise in the order of their heads. A byte
/// string directly under a tag is left out, since that of a bignum has the place of its tag.
pub fn spots_rise()
    ensures { (profile : Profile) (limit : ℕ) (text : List ℕ) (nodes : Trees) → Notates profile limit text nodes → IsRising (spots_all nodes) }
{}

/// The trees of the grammar, a device of the proofs, agree with its relation. Tokens are a text of
/// the grammar exactly if they are those of a tree, which says the same nodes and has the same
/// meaning errors.
#[tactic(auto, using(crate::proofs::Short::Rebuilt::said_by, crate::proofs::Short::Rebuilt::parsed))]
pub fn short_form()
    ensures { (profile : Profile) (limit : ℕ) (tokens : List Token) (nodes : Trees) (errors : List MeaningError) → Parsed profile limit tokens nodes errors ↔ IsText profile limit tokens nodes errors }
{}
