//! What is typed of a text, kept from one tree of it to the next.
ghost use Rattle.text_analysis.specs.Typed.{IsKnown};

use crate::alike::common_front;
use crate::prelude::text;
use crate::typed_items::TypedItems;
use crate::whole::with_prelude;
use analysis_api::{Analyser, Analysis};
use std::alloc::Global;
use syntax_tree::{Counts, Tree};
use typing_state::{NoMemory, NodeRef, Parts};

/// The typer of a text: its items, typed in order, and the variables that are weak after them.
#[derive(Drop)]
pub struct Typer {
    typed: TypedItems,
    weak: Vec<NodeRef>,
    ghost known: { ∥ IsKnown typed ∥₁ },
}

impl Analyser for Typer {
    ghost use Rattle.typing_model.specs.PreludeText.{prelude_text};
    ghost use Rattle.type_nodes.specs.Views.{numbers};
    ghost use Rattle.weak_variables.specs.Free.{FreeOf, IsFound};
    ghost use Rattle.weak_variables.specs.Search.{lists_of};
    ghost use Rattle.text_analysis.specs.Items.{views_of};
    ghost use Rattle.text_analysis.specs.Shown.{Shows};

    ghost items = { λ t. views_of t.typed.items.items };

    ghost finds = { Shows };

    ghost is_settled = { λ t. FreeOf t.typed.parts.store.nodes (IsFound (lists_of t.typed.free.items)) (numbers t.weak.items) };

    ghost opens = { prelude_text };

    fn new<C: Counts>(alloc: Global, counts: &mut C) -> Result<Typer, NoMemory> {
        let mut parts = Parts::new(alloc)?;
        let first = with_prelude(&mut parts, counts)?;
        Ok(Typer {
            typed: TypedItems::new(parts, first),
            weak: Vec::new(alloc),
        })
    }

    fn refresh<C: Counts>(
        &mut self,
        tree: &Tree,
        front: usize,
        counts: &mut C,
    ) -> Result<(), NoMemory> {
        let same = common_front(&self.typed.items, &tree.items, front);
        self.typed.cut(same)?;
        self.typed.go_on(&tree.items, same, counts)?;
        self.weak = self.typed.weak()?;
        Ok(())
    }

    fn found(&self) -> Analysis<'_> {
        // by the length of the store its invariant is known to the proof
        let _nodes = self.typed.parts.store.len();
        Analysis {
            store: &self.typed.parts.store,
            index: &self.typed.parts.index,
            faults: &self.typed.parts.faults,
            end: &self.typed.scene.env,
            weak: &self.weak,
        }
    }

    fn prelude() -> &'static str {
        text()
    }
}
