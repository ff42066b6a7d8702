// The list of tokens, and what stays of it.
ghost use Rattle.std.specs.Prelude.{◌≡◌, ℕ, ◌+◌, ◌-◌, ◌<◌, ◌≤◌, ◌^◌, List, [], ◌∷◌, ◌++◌, length, get_or, map, take, OnOk, OnErr};
ghost use Rattle.std.specs.Str.{IsUtf8, IsCharBoundary};
ghost use Rattle.std.specs.Vec.{vec_capacity};
ghost use Rattle.token_model.specs.Kinds.{Tok};
ghost use Rattle.token_model.specs.Tokens.{column, Lex};
ghost use Rattle.syntax_tree.specs.View.{tok_of};
ghost use Rattle.ml_lexer.specs.Reached.{end_of, reach_of, reached_of, FirstReached};
ghost use Rattle.ml_lexer.specs.Steady.{steady, AllTokens};
ghost use Rattle.token_store.specs.Stored.{last_end, lexed_by, peaks_of, toks_of, IsFront, Stored};

use ml_lexer::{Start, column_behind, lex_on};
use std::alloc::Global;
use std::marker::Model;
use syntax_tree::{Counts, NoMemory, Token};

/// The tokens of a text, kept from one change of the text to the next.
#[derive(Drop)]
pub struct TokenStore {
    alloc: Global,
    tokens: Vec<Token>,
    // how far the tokens reach up to each of them
    peaks: Vec<u32>,
    unchanged: usize,
}

impl Model for TokenStore {
    ghost use Rattle.std.specs.Prelude.{◌≡◌, map};
    ghost use Rattle.ml_lexer.specs.Reached.{reached_of};
    ghost use Rattle.token_store.specs.Stored.{peaks_of, Stored};

    ghost Value = { Stored };

    ghost view = { λ s. record { tokens = map reached_of s.tokens.items; unchanged = s.unchanged } };

    ghost invariant = { λ s. s.peaks.items ≡ peaks_of 0 (map reached_of s.tokens.items) };
}

/// How many tokens are before the first one whose reach is behind a place. Of those it looks at the last alone.
fn steady_count(tokens: &[Token], peaks: &[u32], place: u32) -> usize
    requires peaks { peaks.now ≡ peaks_of 0 (map reached_of tokens.now) }
    ensures within { result ≤ length tokens.now }
    ensures steady { map reached_of (take result tokens.now) ≡ steady reach_of place (map reached_of tokens.now) }
{
    let mut count = tokens.len();
    while count > 0 && peaks[count - 1] > place {
        count -= 1;
    }
    count
}

/// Where a token of a text ends, and the column there.
fn end_of_token(left: &[u8], right: &[u8], token: &Token) -> Start
    requires short { length (left.now ++ right.now) < 2 ^ 32 - 1 }
    requires order { token.now.span.start ≤ token.now.span.end }
    requires within { token.now.span.end ≤ length (left.now ++ right.now) }
    requires col { token.now.col ≡ column (left.now ++ right.now) token.now.span.start }
    ensures at { result.at ≡ token.now.span.end }
    ensures col { result.col ≡ column (left.now ++ right.now) token.now.span.end }
{
    Start {
        at: token.span.end,
        col: column_behind(left, right, token),
    }
}

/// Where tokens of a text end, and the column there: the place from which the text is read on.
fn end_of_tokens(left: &[u8], right: &[u8], tokens: &[Token]) -> Start
    requires short { length (left.now ++ right.now) < 2 ^ 32 - 1 }
    requires text { IsUtf8 (left.now ++ right.now) }
    requires front { IsFront FirstReached end_of (left.now ++ right.now) 0 (map reached_of tokens.now) }
    ensures at { result.at ≡ last_end end_of 0 (map reached_of tokens.now) }
    ensures inside { IsCharBoundary (left.now ++ right.now) result.at }
    ensures col { result.col ≡ column (left.now ++ right.now) result.at }
{
    let count = tokens.len();
    if count == 0 {
        return Start { at: 0, col: 0 };
    }
    end_of_token(left, right, &tokens[count - 1])
}

/// Makes room for one more in both lists, which stay as they are.
fn reserve_one(tokens: &mut Vec<Token>, peaks: &mut Vec<u32>) -> Result<(), NoMemory>
    ensures tokens { tokens.new.items ≡ tokens.old.items }
    ensures peaks { peaks.new.items ≡ peaks.old.items }
    ensures room { OnOk result (length tokens.new.items < vec_capacity tokens.new) }
    ensures peak_room { OnOk result (length peaks.new.items < vec_capacity peaks.new) }
{
    tokens.reserve(1)?;
    peaks.reserve(1)?;
    Ok(())
}

/// Puts an item into the room that a list has.
fn push_in_room<T: Drop>(list: &mut Vec<T>, item: T)
    requires room { length list.old.items < vec_capacity list.old }
    ensures { list.new.items ≡ list.old.items ++ item ∷ [] }
{
    match list.push(item) {
        Ok(()) => {}
        Err(_) => unreachable!(),
    }
}

/// The last of some numbers, or 0 where there are none.
fn last_peak(peaks: &[u32]) -> u32
    ensures { result ≡ get_or peaks.now (length peaks.now - 1) 0 }
{
    let count = peaks.len();
    if count == 0 {
        return 0;
    }
    peaks[count - 1]
}

/// Puts a token behind those that are there, in the room that both lists have.
fn push_token(tokens: &mut Vec<Token>, peaks: &mut Vec<u32>, token: Token)
    requires room { length tokens.old.items < vec_capacity tokens.old }
    requires peak_room { length peaks.old.items < vec_capacity peaks.old }
    requires peaks { peaks.old.items ≡ peaks_of 0 (map reached_of tokens.old.items) }
    ensures tokens { tokens.new.items ≡ tokens.old.items ++ token ∷ [] }
    ensures peaks { peaks.new.items ≡ peaks_of 0 (map reached_of tokens.new.items) }
{
    let peak = last_peak(peaks.as_slice()).max(token.reach);
    push_in_room(peaks, peak);
    push_in_room(tokens, token);
}

/// Reads the tokens of a text behind those that are there, each of which is counted. At want of memory some of them are there.
fn read_on<C: Counts>(
    alloc: Global,
    tokens: &mut Vec<Token>,
    peaks: &mut Vec<u32>,
    left: &[u8],
    right: &[u8],
    counts: &mut C,
) -> Result<(), NoMemory>
    requires short { length (left.now ++ right.now) < 2 ^ 32 - 1 }
    requires text { IsUtf8 (left.now ++ right.now) }
    requires front { IsFront FirstReached end_of (left.now ++ right.now) 0 (map reached_of tokens.old.items) }
    requires peaks { peaks.old.items ≡ peaks_of 0 (map reached_of tokens.old.items) }
    ensures all { OnOk result (AllTokens FirstReached end_of (left.now ++ right.now) 0 (map reached_of tokens.new.items)) }
    ensures front { IsFront FirstReached end_of (left.now ++ right.now) 0 (map reached_of tokens.new.items) }
    ensures kept { take (length tokens.old.items) tokens.new.items ≡ tokens.old.items }
    ensures peaks { peaks.new.items ≡ peaks_of 0 (map reached_of tokens.new.items) }
    ensures counted { C.tallies counts.new ≡ lexed_by (length tokens.new.items - length tokens.old.items) (C.tallies counts.old) }
{
    let mut from = end_of_tokens(left, right, tokens.as_slice());
    reserve_one(tokens, peaks)?;
    while let Some(token) = lex_on(alloc, left, right, from, counts)? {
        from = end_of_token(left, right, &token);
        push_token(tokens, peaks, token);
        reserve_one(tokens, peaks)?;
    }
    Ok(())
}

impl TokenStore {
    /// No tokens, which are those of the empty text. It takes no memory yet.
    pub fn new(alloc: Global) -> TokenStore
        ensures tokens { result.tokens ≡ [] }
        ensures unchanged { result.unchanged ≡ 0 }
    {
        TokenStore {
            alloc,
            tokens: Vec::new(alloc),
            peaks: Vec::new(alloc),
            unchanged: 0,
        }
    }

    /// Makes the tokens those of a text in two parts, of which all bytes before `from` are as they were when the tokens were read:
    /// those before the first one whose reach is behind `from` are kept, and the others are read, each of which is counted.
    /// After `NoMemory` it holds those that are kept, alone.
    pub fn relex<C: Counts>(
        &mut self,
        left: &[u8],
        right: &[u8],
        from: u32,
        counts: &mut C,
    ) -> Result<(), NoMemory>
        requires short { length (left.now ++ right.now) < 2 ^ 32 - 1 }
        requires text { IsUtf8 (left.now ++ right.now) }
        requires front { IsFront FirstReached end_of (left.now ++ right.now) 0 (steady reach_of from self.old.tokens) }
        ensures all { OnOk result (AllTokens FirstReached end_of (left.now ++ right.now) 0 self.new.tokens) }
        ensures tokens { OnOk result (Lex (left.now ++ right.now) (toks_of self.new.tokens)) }
        ensures refused { OnErr result (self.new.tokens ≡ steady reach_of from self.old.tokens) }
        ensures unchanged { self.new.unchanged ≡ length (steady reach_of from self.old.tokens) }
        ensures counted { OnOk result (C.tallies counts.new ≡ lexed_by (length self.new.tokens - length (steady reach_of from self.old.tokens)) (C.tallies counts.old)) }
        ensures work { (n : ℕ) × (C.tallies counts.new ≡ lexed_by n (C.tallies counts.old)) × ((ts : List Tok) → Lex (left.now ++ right.now) ts → n + length (steady reach_of from self.old.tokens) ≤ length ts) }
    {
        let kept = steady_count(self.tokens.as_slice(), self.peaks.as_slice(), from);
        self.tokens.truncate(kept);
        self.peaks.truncate(kept);
        self.unchanged = kept;
        match read_on(
            self.alloc,
            &mut self.tokens,
            &mut self.peaks,
            left,
            right,
            counts,
        ) {
            Ok(()) => Ok(()),
            Err(refusal) => {
                self.tokens.truncate(kept);
                self.peaks.truncate(kept);
                Err(refusal)
            }
        }
    }

    /// How many tokens the last call kept, so that the first one that may have changed has this number, from 0.
    pub fn unchanged(&self) -> usize
        ensures { result ≡ self.now.unchanged }
    {
        self.unchanged
    }

    /// The tokens, in order.
    pub fn tokens(&self) -> &[Token]
        ensures { map reached_of result.now ≡ self.now.tokens }
    {
        self.tokens.as_slice()
    }
}
