//! The tree and the faults of a whole list of tokens.
ghost use Rattle.std.specs.Prelude.{◌≡◌, ◌≤◌, ◌*◌, length, map, IfOk, OnOk};
ghost use Rattle.grammar_model.specs.Named.{named, items_of};
ghost use Rattle.grammar_model.specs.Ocaml as ocaml;
ghost use Rattle.recovery_model.specs.Recovery.{recover};
ghost use Rattle.syntax_tree.specs.Tallies.{Grows};
ghost use Rattle.syntax_tree.specs.View.{tok_of, trees_of};
ghost use Rattle.syntax_rows.specs.View.{text_of};
ghost use Rattle.frame_steps.specs.Told.{told};
ghost use Rattle.frame_steps.specs.View.{fault_of};
ghost use Rattle.frame_parser.specs.Run.{all_shifts, shifted_by};

use crate::cuts::add_faults;
use crate::steps::{begun, close, step};
use frame_steps::{SyntaxFault, Text};
use std::alloc::Global;
use syntax_tree::{Counts, NoMemory, Token, Tree};

/// The tree of a list of tokens, and its faults in order.
#[derive(Drop)]
pub struct Parsed {
    pub tree: Tree,
    pub faults: Vec<SyntaxFault>,
}

/// The tree and the faults of a list of tokens. Each token adds one to the tokens shifted, and one more where it is taken again;
/// for want of memory those before it have.
pub fn parse<C: Counts>(
    alloc: Global,
    text: Text,
    tokens: &[Token],
    counts: &mut C,
) -> Result<Parsed, NoMemory>
    requires few { length tokens.now ≤ 1048576 }
    ensures tree { IfOk result (λ r. trees_of r.tree ≡ items_of (named ocaml.row_name (recover (ocaml.grammar (text_of text)) (map tok_of tokens.now)).0)) }
    ensures faults { IfOk result (λ r. map fault_of r.faults.items ≡ map told (recover (ocaml.grammar (text_of text)) (map tok_of tokens.now)).1) }
    ensures counted { OnOk result (C.tallies counts.new ≡ shifted_by (all_shifts (text_of text) (map tok_of tokens.now)) (C.tallies counts.old)) }
    ensures twice { OnOk result (all_shifts (text_of text) (map tok_of tokens.now) ≤ 2 * length tokens.now) }
    ensures grows { Grows (C.tallies counts.old) (C.tallies counts.new) }
{
    let mut faults = Vec::new(alloc);
    let mut stack = begun(text);
    for token in tokens {
        let stepped = step(alloc, &stack, token, counts)?;
        add_faults(&stepped.faults, &mut faults)?;
        stack = stepped.stack;
    }
    let closed = close(alloc, &stack, 0)?;
    add_faults(&closed.faults, &mut faults)?;
    Ok(Parsed {
        tree: closed.tree,
        faults,
    })
}
