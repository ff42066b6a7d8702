// What is read and parsed anew behind a change.
ghost use Rattle.std.specs.Prelude.{◌≡◌, ℕ, ◌+◌, ◌-◌, ◌*◌, ◌<◌, ◌≤◌, ◌^◌, List, ◌++◌, length, map, take, Option, OnOk};
ghost use Rattle.std.specs.Str.{IsUtf8};
ghost use Rattle.grammar_model.specs.Ocaml.{program_text};
ghost use Rattle.token_model.specs.Kinds.{Tok};
ghost use Rattle.token_model.specs.Tokens.{Lex};
ghost use Rattle.ml_lexer.specs.Reached.{end_of, reach_of, FirstReached};
ghost use Rattle.ml_lexer.specs.Steady.{ends_at, steady, AllTokens};
ghost use Rattle.syntax_tree.specs.Tallies.{Grows};
ghost use Rattle.syntax_tree.specs.View.{tok_of};
ghost use Rattle.token_store.specs.Stored.{lexed_by, toks_of};
ghost use Rattle.resume_parser.specs.Kept.{trees_behind, SharesFront};
ghost use Rattle.resume_parser.specs.Retaken.{kept_behind};
ghost use Rattle.resume_parser.specs.declared.kept.KeptParse.{KeptParse as parser};
ghost use Rattle.kept_text.specs.Keeping.{tok_end, AreLeft, HasTree, IsParsedUpTo, IsParsedWhole};

use resume_parser::{KeptParse, Text};
use std::alloc::Global;
use syntax_tree::{Counts, NoMemory, Token};
use token_store::TokenStore;

/// Makes the tokens those of a text whose first changed byte is known. `same` tells how many of the first tokens the parser knows,
/// before and after. Of the text's tokens at most 32 are read that end before that byte.
pub fn read_again<C: Counts>(
    tokens: &mut TokenStore,
    same: &mut usize,
    left: &[u8],
    right: &[u8],
    from: u32,
    counts: &mut C,
) -> Result<(), NoMemory>
    requires short { length (left.now ++ right.now) < 2 ^ 32 - 1 }
    requires text { IsUtf8 (left.now ++ right.now) }
    requires left { AreLeft (left.now ++ right.now) from tokens.old.tokens }
    ensures all { OnOk result (AllTokens FirstReached end_of (left.now ++ right.now) 0 tokens.new.tokens) }
    ensures left { AreLeft (left.now ++ right.now) from tokens.new.tokens }
    ensures same { (parse : Option parser) → IsParsedUpTo same.old (toks_of tokens.old.tokens) parse → IsParsedUpTo same.new (toks_of tokens.new.tokens) parse }
    ensures front { take same.new (toks_of tokens.old.tokens) ≡ take same.new (toks_of tokens.new.tokens) }
    ensures within { same.new ≤ length (toks_of tokens.old.tokens) }
    ensures known { length (steady reach_of from tokens.old.tokens) ≤ same.old → length (steady reach_of from tokens.new.tokens) ≤ same.new }
    ensures work { (n : ℕ) × (C.tallies counts.new ≡ lexed_by n (C.tallies counts.old)) × ((ts : List Tok) → Lex (left.now ++ right.now) ts → n ≤ 32 + ends_at tok_end from ts) }
{
    let answer = tokens.relex(left, right, from, counts);
    *same = (*same).min(tokens.unchanged());
    answer
}

/// How many items the tree has.
pub fn item_count(parse: &Option<KeptParse>) -> usize
    ensures { (ts : List Tok) → IsParsedWhole ts parse.now → result ≡ length (trees_behind program_text ts) }
{
    match parse {
        Some(begun) => begun.parsed().tree.items.len(),
        None => 0,
    }
}

/// How many items at the front stay as they are where all tokens but the first `same` are parsed anew. Without a tree none is known to.
pub fn front_of(parse: &Option<KeptParse>, has_tree: bool, same: usize) -> usize
    requires parsed { (ts : List Tok) × IsParsedUpTo same ts parse.now }
    ensures front { (ts us : List Tok) → HasTree has_tree ts parse.now → take same ts ≡ take same us → same ≤ length ts → length us ≤ 1048576 → SharesFront (trees_behind program_text ts) (trees_behind program_text us) result }
{
    match parse {
        Some(begun) if has_tree => begun.front(same),
        _ => 0,
    }
}

/// Parses tokens of which the first `same` are known to the parser. After `NoMemory` these are known still.
pub fn parse_again<C: Counts>(
    alloc: Global,
    parse: &mut Option<KeptParse>,
    tokens: &[Token],
    same: usize,
    counts: &mut C,
) -> Result<(), NoMemory>
    requires few { length tokens.now ≤ 1048576 }
    requires parsed { IsParsedUpTo same (map tok_of tokens.now) parse.old }
    ensures whole { OnOk result (IsParsedWhole (map tok_of tokens.now) parse.new) }
    ensures parsed { IsParsedUpTo same (map tok_of tokens.now) parse.new }
    ensures shifted { (k : ℕ) → k ≤ same → (C.tallies counts.new).shifted ≤ (C.tallies counts.old).shifted + (kept_behind program_text (take k (map tok_of tokens.now)) + 2 * (length tokens.now - k)) }
    ensures unlexed { (C.tallies counts.new).lexed ≡ (C.tallies counts.old).lexed }
    ensures untyped { (C.tallies counts.new).typed ≡ (C.tallies counts.old).typed }
    ensures grows { Grows (C.tallies counts.old) (C.tallies counts.new) }
{
    match parse {
        Some(begun) => begun.refresh(tokens, same, counts),
        None => {
            let mut begun = KeptParse::new(alloc, Text::Program)?;
            let answer = begun.refresh(tokens, 0, counts);
            *parse = Some(begun);
            answer
        }
    }
}
