//! What is found of the types and names of a text, and the trait of what finds it and keeps it while the text is edited.
//! It keeps nothing itself, and knows nothing of how types are found: the typer is one `Analyser`, and a session takes any.
//! It is built on the tables that an analysis fills: the nodes of types, environments, and the records of a tree's nodes.
//! The layer above may use the fields of an `Analysis`, and an `Analyser`: `refresh` says which trees it holds, and that each item
//! is counted as typed but for those at the front that are as they were, and no others; `found` which faults and which types items of `let` have, and which of their variables are weak.
#![tactic(auto)]

ghost use Rattle.std.specs.Prelude.{◌≡◌, ℕ, List, [], ◌+◌, ◌-◌, ◌≤◌, length, map, true, IfOk, OnOk, OnErr};
ghost use Rattle.token_model.specs.Kinds.{Tok};
ghost use Rattle.token_model.specs.Tokens.{Lex};
ghost use Rattle.fault_model.specs.Refused.{AreOfValues, AreRefused};
ghost use Rattle.syntax_tree.specs.Tallies.{Grows};
ghost use Rattle.syntax_tree.specs.View.{trees_of};
ghost use Rattle.analysis_api.specs.Typed.{more_typed, GoesOn, LongestFront, SameFront};
ghost use Rattle.analysis_api.specs.Faults.{typer_fault_of};
ghost use Rattle.analysis_api.specs.Types.{AreTyped, AreSettled};

use env_table::{Env, Faults, Seen};
use std::alloc::Global;
use syntax_tree::{Counts, NoMemory, Tree};
use type_nodes::{NodeRef, Store};
use typed_index::TypedIndex;

/// What is found of a text's types and names.
#[derive(Clone, Copy)]
pub struct Analysis<'a> {
    /// The nodes of the recorded types.
    pub store: &'a Store,
    /// What is recorded for each node and each missing operand.
    pub index: &'a TypedIndex<Seen>,
    /// What is wrong with types and names, and what matches miss, in the order of the demands.
    pub faults: &'a Faults,
    /// The names in scope after the last item.
    pub end: &'a Env,
    /// The variables that are free in the types of these names.
    pub weak: &'a [NodeRef],
}

/// What finds the types and names of a text, and keeps them from one tree of the text to the next.
pub trait Analyser: Drop {
    ghost use Rattle.std.specs.Prelude.{List, ℕ};
    ghost use Rattle.tree_model.specs.Trees as plain;
    ghost use Rattle.analysis_api.specs.declared.Analysis.{Analysis};

    /// The trees of the items whose types and names it holds.
    ghost items: { Self → List plain.Tree };

    /// Whether an analysis is what it found of these items.
    ghost finds: { Self → Analysis → Type 0 };

    /// That its weak variables are those of the items that it holds.
    ghost is_settled: { Self → Type 0 };

    /// The bytes of the prelude.
    ghost opens: { List ℕ };

    /// What every text has at hand, and no item. The prelude's tokens are counted, each once, as lexed and as shifted, and no item.
    fn new<C: Counts>(alloc: Global, counts: &mut C) -> Result<Self, NoMemory>
        ensures items { IfOk result (λ a. items a ≡ []) }
        ensures lexed { (ts : List Tok) → Lex opens ts → (C.tallies counts.new).lexed ≤ (C.tallies counts.old).lexed + length ts }
        ensures shifted { (ts : List Tok) → Lex opens ts → (C.tallies counts.new).shifted ≤ (C.tallies counts.old).shifted + length ts }
        ensures grows { Grows (C.tallies counts.old) (C.tallies counts.new) }
        ensures untyped { (C.tallies counts.new).typed ≡ (C.tallies counts.old).typed };

    /// Finds the types and names of a text with this tree. The items at the front that it holds already stay as they are, all of them,
    /// of which the caller knows the first `front`; each item after them is typed, and counted once. After `NoMemory` it holds those
    /// that stay and some after them, which were typed, and can be asked again. It lexes and parses nothing.
    fn refresh<C: Counts>(
        &mut self,
        tree: &Tree,
        front: usize,
        counts: &mut C,
    ) -> Result<(), NoMemory>
        requires front { SameFront (items self.old) (trees_of tree.now) front }
        ensures items { OnOk result (items self.new ≡ trees_of tree.now) }
        ensures settled { OnOk result (is_settled self.new) }
        ensures typed { OnOk result ((n : ℕ) × LongestFront (items self.old) (trees_of tree.now) n × ((C.tallies counts.new).typed ≡ more_typed (length tree.now.items.items - n) (C.tallies counts.old).typed)) }
        ensures failed { OnErr result (GoesOn (items self.old) (trees_of tree.now) (items self.new) (C.tallies counts.old).typed (C.tallies counts.new).typed) }
        ensures unlexed { (C.tallies counts.new).lexed ≡ (C.tallies counts.old).lexed }
        ensures unshifted { (C.tallies counts.new).shifted ≡ (C.tallies counts.old).shifted }
        ensures grows { Grows (C.tallies counts.old) (C.tallies counts.new) };

    /// What is found of the items that it holds, after a `refresh` that succeeded. Of items that are `let`, `;;` and exceptions without an argument
    /// the faults but for warnings are those of the demands that aren't kept, in order, so that such items that can be typed have none;
    /// and what is recorded for expressions and patterns are the types of a principal typing; after a `refresh` that succeeded the weak variables are
    /// those of this typing.
    fn found(&self) -> Analysis<'_>
        ensures found { finds self.now result }
        ensures refused { AreOfValues (items self.now) → ∥ AreRefused (items self.now) (map typer_fault_of result.faults.now.list.items) ∥₁ }
        ensures typed { AreOfValues (items self.now) → ∥ AreTyped (items self.now) result ∥₁ }
        ensures settled { is_settled self.now → AreOfValues (items self.now) → ∥ AreSettled (items self.now) result ∥₁ };

    /// The text of the prelude, whose names every text has at hand; its lines are counted from 1.
    fn prelude() -> &'static str
        ensures { result.now ≡ opens };
}
