//! Changed texts that are tried.
ghost use Rattle.std.specs.Prelude.{◌≡◌, ◌∷◌, ◌++◌, [], List, ℕ, IfOk};
ghost use Rattle.text_terms.specs.Bytes.{str_bytes};
ghost use Rattle.syntax_tree.specs.Tallies.{Grows, Tallies};
ghost use Rattle.asked_node.specs.Trials.{AreReplaced};

use query_engine::Replacement;
use syntax_tree::{Counts, NoMemory};

/// A text of which changes are tried. `tells` says of a text, the span in place of which bytes go, and these bytes, what a trial
/// tells. `spends` says of some changed texts, the one that was tried last first, what it took to try them, by the counter before
/// and after.
pub trait Trial {
    ghost use Rattle.std.specs.Prelude.{List, ℕ, Option};
    ghost use Rattle.text_terms.specs.declared.Span.{Span};
    ghost use Rattle.syntax_tree.specs.Tallies.{Tallies};

    ghost text: { Self → List ℕ };

    ghost tells: { List ℕ → Span → List ℕ → Option ℕ → Type 0 };

    ghost spends: { Self → List (List ℕ) → Self → Tallies → Tallies → Type 0 };

    /// The first place in the text, in bytes from 0, at which the changed text has a fault that the text hasn't, warnings
    /// included. None where it has none. The text stays, after want of memory too. No other text than the changed one is tried, and
    /// that once at most.
    fn first_new_fault<C: Counts>(
        &mut self,
        replacement: &Replacement,
        counts: &mut C,
    ) -> Result<Option<u32>, NoMemory>
        ensures told { IfOk result (λ place. tells (text self.old) replacement.now.span (str_bytes replacement.now.text) place) }
        ensures text { text self.new ≡ text self.old }
        ensures spends { (tried : List (List ℕ)) × AreReplaced (text self.old) (replacement.now ∷ []) tried × spends self.old tried self.new (C.tallies counts.old) (C.tallies counts.new) }
        ensures grows { Grows (C.tallies counts.old) (C.tallies counts.new) };

    /// Trying no text spends nothing.
    ghost starts: { (t : Self) (a : Tallies) → spends t [] t a a };

    /// What texts and then others spend, all of them spend.
    ghost joins: { (s t u : Self) (xs ys : List (List ℕ)) (a b c : Tallies) → spends s xs t a b → spends t ys u b c → spends s (ys ++ xs) u a c };
}
