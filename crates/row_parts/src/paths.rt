//! Paths as they are written.
ghost use Rattle.std.specs.Prelude.{◌≡◌, IfOk};
ghost use Rattle.syntax_tree.specs.View.{node_view};
ghost use Rattle.row_parts.specs.Numbered.{path_in, path_view};

use crate::taken::{token, tokens};
use std::alloc::Global;
use syntax_tree::{NoMemory, Node, Token};

/// `M.N.x`: the qualifiers and the last token, which may be missing.
#[derive(Drop)]
pub struct WrittenPath<'a> {
    pub qualifiers: Vec<&'a Token>,
    pub last: Option<&'a Token>,
}

/// The path whose qualifiers and whose last token stand in two slots of a node.
pub fn written_path<'a>(
    alloc: Global,
    node: &'a Node,
    qualifiers: u8,
    last: u8,
) -> Result<WrittenPath<'a>, NoMemory>
    ensures { IfOk result (λ p. path_view p ≡ path_in (node_view node.now) qualifiers last) }
{
    Ok(WrittenPath {
        qualifiers: tokens(alloc, node, qualifiers)?,
        last: token(node, last),
    })
}
