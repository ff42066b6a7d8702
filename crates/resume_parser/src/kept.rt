// What is kept of a text's tokens, one by one, and the tree that comes of them.
ghost use Rattle.std.specs.Prelude.{◌≡◌, ℕ, ◌+◌, ◌-◌, ◌*◌, ◌≤◌, ◌<◌, List, [], ◌∷◌, ◌++◌, length, map, take, IfOk, OnOk, OnErr};
ghost use Rattle.std.specs.Vec.{vec_capacity};
ghost use Rattle.token_model.specs.Kinds.{Tok};
ghost use Rattle.grammar_model.specs.Ocaml as ocaml;
ghost use Rattle.settled_laws.specs.Settled.{settled_in};
ghost use Rattle.syntax_tree.specs.Tallies.{Grows};
ghost use Rattle.syntax_tree.specs.View.{tok_of};
ghost use Rattle.syntax_rows.specs.View.{text_of};
ghost use Rattle.frame_parser.specs.Behind.{Behind};
ghost use Rattle.frame_parser.specs.Run.{faults, next_shifts, shifted_by};
ghost use Rattle.resume_parser.specs.Kept.{text_in, trees_behind, ArePassed, HasParsed, IsBegun, IsCounted, IsWhole, SharesFront};
ghost use Rattle.resume_parser.specs.Retaken.{kept_behind};

use frame_parser::{Parsed, Stack, Text, Tree, close, empty, empty_sig, settled, step_onto};
use std::alloc::Global;
use syntax_tree::{Counts, NoMemory, Token};

/// What is kept of a token that has been parsed.
#[derive(Drop)]
struct Passed {
    /// The stack behind it.
    stack: Stack,
    /// How many faults came with it and the tokens before it.
    faults: usize,
}

/// What the parser made of each token of a text, with the tree and the faults, kept from one change of the text to the next.
#[derive(Drop)]
pub struct KeptParse {
    alloc: Global,
    text: Text,
    start: Stack,
    steps: Vec<Passed>,
    /// The tree and the faults of the tokens, where the last `refresh` succeeded.
    parsed: Parsed,
}

/// The stack behind the last of some tokens, or the one that they begin with.
fn stack_behind<'a>(start: &'a Stack, steps: &'a [Passed]) -> &'a Stack
    ensures { (text : ocaml.Text) (ts : List Tok) → Behind text [] start.entry.now → ArePassed text [] ts steps.entry.now → Behind text ts result.now }
{
    let count = steps.len();
    if count == 0 {
        return start;
    }
    &steps[count - 1].stack
}

/// How many faults came with some tokens.
fn faults_behind(steps: &[Passed]) -> usize
    ensures { (text : ocaml.Text) (ts : List Tok) → ArePassed text [] ts steps.now → result ≡ length (faults text ts) }
{
    let count = steps.len();
    if count == 0 {
        return 0;
    }
    steps[count - 1].faults
}

/// Puts what is kept of a token into the room that a list has.
fn push_in_room(steps: &mut Vec<Passed>, passed: Passed)
    requires room { length steps.old.items < vec_capacity steps.old }
    ensures { steps.new.items ≡ steps.old.items ++ passed ∷ [] }
{
    match steps.push(passed) {
        Ok(()) => {}
        Err(_) => unreachable!(),
    }
}

impl KeptParse {
    /// Nothing parsed yet of a text of this kind.
    pub fn new(alloc: Global, text: Text) -> Result<KeptParse, NoMemory>
        ensures text { IfOk result (λ k. text_in k ≡ text_of text) }
        ensures parsed { IfOk result (λ k. HasParsed [] k) }
    {
        let start = begun(alloc, text)?;
        Ok(KeptParse {
            alloc,
            text,
            start,
            steps: Vec::new(alloc),
            parsed: Parsed {
                tree: Tree {
                    items: Vec::new(alloc),
                },
                faults: Vec::new(alloc),
            },
        })
    }

    /// Parses tokens of which the first `same` are the first ones that it has parsed already; the others count as tokens shifted,
    /// one for each time that the parser takes one. Then the tree and the faults are theirs. After `NoMemory` it has parsed some of
    /// them, at least the first `same`, and counted these.
    pub fn refresh<C: Counts>(
        &mut self,
        tokens: &[Token],
        same: usize,
        counts: &mut C,
    ) -> Result<(), NoMemory>
        requires few { length tokens.now ≤ 1048576 }
        requires within { same ≤ length tokens.now }
        requires kept { (old : List Tok) × HasParsed old self.old × (same ≤ length old) × (take same old ≡ take same (map tok_of tokens.now)) }
        ensures text { text_in self.new ≡ text_in self.old }
        ensures parsed { OnOk result (IsWhole (map tok_of tokens.now) self.new) }
        ensures refused { OnErr result ((n : ℕ) × (same ≤ n) × (n ≤ length tokens.now) × HasParsed (map tok_of (take n tokens.now)) self.new × IsCounted (text_in self.old) same (map tok_of (take n tokens.now)) (C.tallies counts.old) (C.tallies counts.new)) }
        ensures counted { OnOk result (IsCounted (text_in self.old) same (map tok_of tokens.now) (C.tallies counts.old) (C.tallies counts.new)) }
        ensures work { (n : ℕ) × (C.tallies counts.new ≡ shifted_by n (C.tallies counts.old)) × ((k : ℕ) → k ≤ same → n ≤ kept_behind (text_in self.old) (take k (map tok_of tokens.now)) + 2 * (length tokens.now - k)) }
        ensures unlexed { (C.tallies counts.new).lexed ≡ (C.tallies counts.old).lexed }
        ensures untyped { (C.tallies counts.new).typed ≡ (C.tallies counts.old).typed }
        ensures grows { Grows (C.tallies counts.old) (C.tallies counts.new) }
    {
        self.cut(same);
        for k in same..tokens.len() {
            self.take(&tokens[k], counts)?;
        }
        self.end()?;
        Ok(())
    }

    /// Only the first tokens are parsed now, and of the tree only their settled items are left.
    fn cut(&mut self, same: usize)
        ensures text { text_in self.new ≡ text_in self.old }
        ensures parsed { (ts : List Tok) → HasParsed ts self.old → length (take same ts) ≤ 1048576 → IsBegun (take same ts) self.new }
    {
        self.steps.truncate(same);
        let items = settled(stack_behind(&self.start, self.steps.as_slice())) as usize;
        self.parsed.tree.items.truncate(items);
        let faults = faults_behind(self.steps.as_slice());
        self.parsed.faults.truncate(faults);
    }

    /// Parses one token more. After `NoMemory` the same tokens are parsed as before.
    fn take<C: Counts>(&mut self, token: &Token, counts: &mut C) -> Result<(), NoMemory>
        requires few { (ts : List Tok) × IsBegun ts self.old × (length ts < 1048576) }
        ensures text { text_in self.new ≡ text_in self.old }
        ensures parsed { OnOk result ((ts : List Tok) → IsBegun ts self.old → length ts < 1048576 → IsBegun (ts ++ tok_of token.now ∷ []) self.new) }
        ensures refused { OnErr result ((ts : List Tok) → IsBegun ts self.old → IsBegun ts self.new) }
        ensures counted { OnOk result ((ts : List Tok) → IsBegun ts self.old → length ts < 1048576 → C.tallies counts.new ≡ shifted_by (next_shifts (text_in self.old) ts (tok_of token.now)) (C.tallies counts.old)) }
        ensures uncounted { OnErr result (C.tallies counts.new ≡ C.tallies counts.old) }
    {
        self.steps.reserve(1)?;
        let before = stack_behind(&self.start, self.steps.as_slice());
        let stack = step_onto(self.alloc, before, token, &mut self.parsed.faults, counts)?;
        let faults = self.parsed.faults.len();
        push_in_room(&mut self.steps, Passed { stack, faults });
        Ok(())
    }

    /// Puts the other items of the tree behind those that are settled, and the faults at the end behind the others. After `NoMemory`
    /// the same tokens are parsed as before.
    fn end(&mut self) -> Result<(), NoMemory>
        requires few { (ts : List Tok) × IsBegun ts self.old × (length ts ≤ 1048576) }
        ensures text { text_in self.new ≡ text_in self.old }
        ensures whole { OnOk result ((ts : List Tok) → IsBegun ts self.old → length ts ≤ 1048576 → IsWhole ts self.new) }
        ensures refused { OnErr result ((ts : List Tok) → IsBegun ts self.old → HasParsed ts self.new) }
    {
        let stack = stack_behind(&self.start, self.steps.as_slice());
        let mut closed = close(self.alloc, stack, self.parsed.tree.items.len())?;
        self.parsed.faults.extend_from_slice(&closed.faults)?;
        self.parsed.tree.items.append(&mut closed.tree.items)?;
        Ok(())
    }

    /// The tree of the tokens and all faults in order, after a `refresh` that succeeded.
    pub fn parsed(&self) -> &Parsed
        ensures { result.now ≡ self.now.parsed }
    {
        &self.parsed
    }

    /// The same, for a caller that parses no more.
    pub fn into_parsed(self) -> Parsed
        ensures { result ≡ self.parsed }
    {
        self.parsed
    }

    /// How many items at the front the next `refresh` with this `same` leaves as they are: those that are settled behind the first `same`
    /// tokens.
    pub fn front(&self, same: usize) -> usize
        requires parsed { (ts : List Tok) × HasParsed ts self.now × (same ≤ length ts) }
        ensures front { (ts us : List Tok) → IsWhole ts self.now → take same ts ≡ take same us → same ≤ length ts → length us ≤ 1048576 → length ts ≤ 1048576 → SharesFront (trees_behind (text_in self.now) ts) (trees_behind (text_in self.now) us) result }
        ensures count { (ts : List Tok) → HasParsed ts self.now → same ≤ 1048576 → result ≡ length (settled_in (text_in self.now) (take same ts)) }
    {
        let first = &self.steps.as_slice()[..same];
        settled(stack_behind(&self.start, first)) as usize
    }
}

/// The stack of a text without tokens.
fn begun(alloc: Global, text: Text) -> Result<Stack, NoMemory>
    ensures { IfOk result (λ s. Behind (text_of text) [] s) }
{
    match text {
        Text::Program => empty(alloc),
        Text::Signature => empty_sig(alloc),
    }
}
