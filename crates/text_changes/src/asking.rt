//! What queries are asked of.
ghost use Rattle.std.specs.Prelude.{◌≡◌};

use analysis_api::Analysis;
use query_engine::Asked;
use syntax_tree::Tree;

/// What queries are asked of: a tree, by what a typer found of it.
pub fn asked<'a>(tree: &'a Tree, analysis: &Analysis<'a>) -> Asked<'a>
    ensures tree { result.tree.now ≡ tree.now }
    ensures index { result.index.now ≡ analysis.now.index.now }
    ensures store { result.store.now ≡ analysis.now.store.now }
    ensures weak { result.weak.now ≡ analysis.now.weak.now }
{
    Asked {
        tree,
        index: analysis.index,
        store: analysis.store,
        end: analysis.end,
        faults: analysis.faults,
        weak: analysis.weak,
    }
}
