//! The end of a group: what is held, the origins that an item allows, and the generalised types of its names.
#![tactic(auto, using(typing_state::proofs::Going::goes_trans, typing_state::proofs::Going::goes_refl, typing_state::proofs::Silence::store_silent, typing_state::proofs::Silence::silent_refl, typing_state::proofs::Silence::silent_trans))]

ghost use Rattle.std.specs.Prelude.{◌≡◌, ◌⊎◌, ◌+◌, ◌-◌, ◌^◌, ◌<◌, ℕ, [], ◌∷◌, ◌++◌, map, IfOk, OnOk, OnErr};
ghost use Rattle.type_nodes.specs.Nodes.{Var, bound_level};
ghost use Rattle.type_nodes.specs.Changes.{Makes};
ghost use Rattle.env_table.specs.Views.{newest_first};
ghost use Rattle.typing_state.specs.Goes.{Goes, Silent};
ghost use Rattle.typing_state.specs.Types.{level_for};
ghost use Rattle.pattern_typing.specs.Matching.{binds_of};
ghost use Rattle.binding_rows.specs.CaseScopes.{names_added};
ghost use Rattle.binding_rows.specs.Closing.{GeneralisesAll, LimitsNodes};
ghost use Rattle.binding_rows.specs.Lets.{bind_nodes, limited_nodes, names_closed};
ghost use Rattle.binding_rows.specs.LetNodes.{ClosesBindings};
ghost use Rattle.binding_rows.specs.Scopes.{InsideNodes};
ghost use Rattle.binding_steps.specs.Bindings.{closing_of, name_nodes};

use crate::groups::Bound;
use crate::parameters::with_names;
use owned_lists::push;
use pattern_typing::BoundName;
use std::alloc::AllocError;
use std::rc::Rc;
use typing_state::{Entry, Env, NO_SCOPE, NoMemory, NodeRef, Parts, is_node, share_entry};

/// The highest level of a variable; the one above it is that of bound variables.
const HIGHEST: u32 = 4_294_967_294;

/// What a group adds: the environment behind it, and its entries in order.
#[derive(Drop)]
pub struct Behind {
    pub env: Env,
    pub entries: Vec<Rc<Entry>>,
}

/// Begins a group of bindings: what is typed until `close` is one level further in. It fails where no level is left, which the limit of 512
/// on the height of trees rules out; then nothing has changed.
pub fn raise(at: &mut Parts) -> Result<(), NoMemory>
    ensures raised { OnOk result ((at.new ≡ record at.old { level = at.old.level + 1 }) × (at.old.level + 1 < 2 ^ 32 - 1)) }
    ensures failed { OnErr result (at.new ≡ at.old) }
    ensures silent { Silent at.old at.new }
    ensures goes { Goes at.old at.new }
{
    if at.level >= HIGHEST {
        return Err(AllocError);
    }
    at.level += 1;
    Ok(())
}

/// Limits the types of all names of a group to the origins that were made before this node, and so are the types that their variables get later. A group
/// is limited as a whole before it is closed, since its names may share variables.
pub fn limit_names(at: &mut Parts, bound: &[Bound<'_>], scope: u64) -> Result<(), NoMemory>
    ensures inside { OnOk result (InsideNodes at.old at.new bound_level scope (bind_nodes (names_closed (map closing_of bound.now)))) }
    ensures silent { Silent at.old at.new }
    ensures goes { Goes at.old at.new }
{
    for one in bound {
        limit_each(at, &one.matched.names, scope)?;
    }
    Ok(())
}

/// The same for the names of one binding.
fn limit_each(at: &mut Parts, names: &[BoundName<'_>], scope: u64) -> Result<(), NoMemory>
    ensures inside { OnOk result (InsideNodes at.old at.new bound_level scope (name_nodes names.now)) }
    ensures silent { Silent at.old at.new }
    ensures goes { Goes at.old at.new }
{
    for name in names {
        limit_to(at, name.node, scope)?;
    }
    Ok(())
}

/// Limits a type, at any level, to the origins that were made before a node. Where an origin was made later, or the number is no node, the call gives
/// up with `NoMemory`: no text shows this, since an item makes no origin before its names are typed. The store has at most a variable more then.
fn limit_to(at: &mut Parts, ty: NodeRef, scope: u64) -> Result<(), NoMemory>
    ensures inside { OnOk result (InsideNodes at.old at.new bound_level scope (ty.0 ∷ [])) }
    ensures failed { OnErr result ((at.new ≡ at.old) ⊎ ((n : ℕ) × Makes at.old.store at.new.store n (Var (level_for bound_level) scope))) }
    ensures silent { Silent at.old at.new }
    ensures goes { Goes at.old at.new }
{
    let limit = at.store.var(HIGHEST, scope)?;
    if !is_node(&at.store, ty) {
        return Err(AllocError);
    }
    let Ok(()) = at.unify(limit, ty) else {
        return Err(AllocError);
    };
    // the store is sound, as its length makes known
    let _nodes = at.store.len();
    Ok(())
}

/// Closes a group. What stands in the types of right sides that are expansive, and of their names, is held; the variables in the
/// types of names are generalised.
pub fn close(at: &mut Parts, bound: &[Bound<'_>], env: &Env) -> Result<Behind, NoMemory>
    ensures carries { OnOk result (ClosesBindings at.old at.new (map closing_of bound.now)) }
    ensures names { IfOk result (λ e. e.env ≡ names_added (names_closed (map closing_of bound.now)) env.now) }
    ensures grows { IfOk result (λ e. e.env ≡ newest_first e.entries.items ++ env.now) }
    ensures silent { Silent at.old at.new }
    ensures goes { Goes at.old at.new }
{
    at.level = at.level.saturating_sub(1);
    let level = at.level;
    hold_all(at, bound, level)?;
    let mut entries = Vec::new(at.alloc());
    let mut behind = env.share()?;
    for one in bound {
        close_names(at, &one.matched.names, &mut entries)?;
        behind = with_names(at.alloc(), &one.matched.names, &behind)?;
    }
    // the store is sound, as its length makes known
    let _nodes = at.store.len();
    Ok(Behind {
        env: behind,
        entries,
    })
}

/// The variables in expansive right sides, and in the types of their names, aren't generalised.
fn hold_all(at: &mut Parts, bound: &[Bound<'_>], level: u32) -> Result<(), NoMemory>
    ensures limits { OnOk result (LimitsNodes at.old at.new level (limited_nodes (map closing_of bound.now))) }
    ensures silent { Silent at.old at.new }
    ensures goes { Goes at.old at.new }
{
    for one in bound {
        hold_one(at, one, level)?;
    }
    Ok(())
}

/// The same for one right side and its names.
fn hold_one(at: &mut Parts, one: &Bound<'_>, level: u32) -> Result<(), NoMemory>
    ensures limits { OnOk result (LimitsNodes at.old at.new level (limited_nodes (closing_of one.now ∷ []))) }
    ensures silent { Silent at.old at.new }
    ensures goes { Goes at.old at.new }
{
    if one.generalises {
        return Ok(());
    }
    at.limit(one.right, level, NO_SCOPE)?;
    hold(at, &one.matched.names, level)
}

/// The variables in the types of names aren't generalised.
fn hold(at: &mut Parts, names: &[BoundName<'_>], level: u32) -> Result<(), NoMemory>
    ensures limits { OnOk result (LimitsNodes at.old at.new level (name_nodes names.now)) }
    ensures silent { Silent at.old at.new }
    ensures goes { Goes at.old at.new }
{
    for name in names {
        at.limit(name.node, level, NO_SCOPE)?;
    }
    Ok(())
}

/// Generalises the types of names, which become entries.
fn close_names(
    at: &mut Parts,
    names: &[BoundName<'_>],
    entries: &mut Vec<Rc<Entry>>,
) -> Result<(), NoMemory>
    ensures generalises { OnOk result (GeneralisesAll at.old at.new (name_nodes names.now)) }
    ensures entries { OnOk result (newest_first entries.new.items ≡ names_added (binds_of names.now) (newest_first entries.old.items)) }
    ensures silent { Silent at.old at.new }
    ensures goes { Goes at.old at.new }
{
    for name in names {
        at.generalise(name.node)?;
        push(entries, share_entry(&name.entry)?)?;
    }
    Ok(())
}
