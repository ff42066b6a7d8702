//! Heads in front of arguments: the demand that one is an arrow, and a constructor that is recorded with its arguments.
#![tactic(auto, using(typing_state::proofs::Going::goes_trans, typing_state::proofs::Going::goes_refl, typing_state::proofs::Silence::store_silent, typing_state::proofs::Silence::silent_refl, typing_state::proofs::Silence::silent_trans), unfolding(syntax_tree::specs::Names::row_of))]

ghost use Rattle.std.specs.Prelude.{◌≡◌, true, map, IfOk};
ghost use Rattle.typing_conditions.specs.Steps.{Records};
ghost use Rattle.typing_steps.specs.States.{is_aloud, sight};
ghost use Rattle.typing_rows.specs.Asked.{expressions_of};
ghost use Rattle.typing_rows.specs.Contracts.{MakesBoth, HeadIsArrow, EndsUnknown};
ghost use Rattle.syntax_tree.specs.View.{place_of};
ghost use Rattle.row_parts.specs.Numbered.{operand_view};
ghost use Rattle.typing_state.specs.Goes.{Goes, Silent};

use row_parts::Operand;
use syntax_tree::Span;
use typing_state::{Env, NoMemory, NodeRef, Parts};
use use_typing::{Construction, Used, any_type, unnamed};

/// A constructor with arguments, which is recorded.
#[derive(Clone, Copy, Drop)]
pub struct Head {
    /// The type of what it builds.
    pub ty: NodeRef,
    pub known: bool,
}

/// Records a constructor that has arguments.
pub fn note_head(
    at: &mut Parts,
    number: u32,
    found: Construction,
    env: &Env,
) -> Result<Head, NoMemory>
    ensures carries { IfOk result (λ h. is_aloud at.old.telling ≡ true → Records (sight at.old) (sight at.new) number h.ty.0 env.now) }
    ensures head { IfOk result (λ h. (h.ty ≡ found.built) × (h.known ≡ found.known)) }
    ensures goes { Goes at.old at.new }
{
    at.note(number, env, Some(found.built), found.names)?;
    Ok(Head {
        ty: found.built,
        known: found.known,
    })
}

/// What an unknown constructor builds: with one argument what it is, with more any type.
pub fn built_by_unknown(
    at: &mut Parts,
    built: NodeRef,
    later: &[Operand<'_>],
) -> Result<Used, NoMemory>
    ensures carries { IfOk result (λ u. EndsUnknown at.old at.new (expressions_of at.old.item (map operand_view later.now)) built.0 u.ty.0) }
    ensures silent { Silent at.old at.new }
    ensures goes { Goes at.old at.new }
{
    if later.is_empty() {
        return Ok(unnamed(at, built));
    }
    any_type(at)
}

/// The demand that a head's type is an arrow: its sides.
pub fn ask_arrow(
    at: &mut Parts,
    place: Span,
    head: NodeRef,
    env: &Env,
) -> Result<(NodeRef, NodeRef), NoMemory>
    ensures carries { IfOk result (λ p. HeadIsArrow at.old at.new env.now (place_of place) head.0 p.0.0 p.1.0) }
    ensures goes { Goes at.old at.new }
{
    let (from, to) = two_types(at)?;
    let arrow = at.arrow(from, to)?;
    at.equal(place, head, arrow, env)?;
    Ok((from, to))
}

/// Two new variables.
fn two_types(at: &mut Parts) -> Result<(NodeRef, NodeRef), NoMemory>
    ensures carries { IfOk result (λ p. MakesBoth at.old at.new p.0.0 p.1.0) }
    ensures silent { Silent at.old at.new }
    ensures goes { Goes at.old at.new }
{
    let from = at.var()?;
    let to = at.var()?;
    Ok((from, to))
}
