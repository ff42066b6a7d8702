//! Types that are written behind patterns and expressions.
#![tactic(auto, using(typing_state::proofs::Going::goes_trans, typing_state::proofs::Going::goes_refl))]

ghost use Rattle.std.specs.Prelude.{option_map, IfOk};
ghost use Rattle.row_parts.specs.Numbered.{operand_view};
ghost use Rattle.syntax_tree.specs.View.{place_of};
ghost use Rattle.typing_state.specs.Goes.{Goes};
ghost use Rattle.type_expressions.specs.Written.{AsksWritten, IsAsWritten};

use crate::types::{Variables, read_type};
use row_parts::Operand;
use typing_state::{Depth, Env, NoMemory, NodeRef, Parts};

/// The type that is written behind a part, which has it; without one the part's own.
pub fn as_written(
    at: &mut Parts,
    written: Option<Operand<'_>>,
    part: Operand<'_>,
    ty: NodeRef,
    env: &Env,
    depth: Depth,
) -> Result<NodeRef, NoMemory>
    ensures written { IfOk result (λ n. IsAsWritten (option_map operand_view written.entry) part.entry.span ty at.old at.new env.now n) }
    ensures carries { IfOk result (λ n. AsksWritten at.old at.new env.now (option_map operand_view written.entry) (place_of part.entry.span) ty.0 n.0) }
    ensures goes { Goes at.old at.new }
{
    match written {
        Some(written) => {
            let wanted = read_type(at, written, env, &Variables::OfItem, depth)?;
            at.equal(part.span, ty, wanted, env)?;
            Ok(wanted)
        }
        None => Ok(ty),
    }
}
