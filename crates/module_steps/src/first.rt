//! The first environment: the built-in types.
ghost use Rattle.std.specs.Prelude.{◌≡◌, [], IfOk, OnOk};
ghost use Rattle.typing_model.specs.BuiltIns.{built_in_names, built_in_origin};
ghost use Rattle.typing_state.specs.BuiltIns.{number_of};
ghost use Rattle.typing_state.specs.Goes.{Goes, OnlyStore};
ghost use Rattle.typing_steps.specs.Constants.{HasConstants};
ghost use Rattle.typing_steps.specs.States.{sight};
ghost use Rattle.first_laws.specs.Declaring.{StartsAmong};
ghost use Rattle.first_laws.specs.Built.{arity_of, MakesRoot, DeclaresBuiltIn, EntersBuiltIn, EntersAll};
ghost use Rattle.module_steps.specs.First.{IsBuiltIn, HasBuiltIns};

use env_table::{Declaration, Entry, Kind, Place, Shape, What};
use owned_lists::owned;
use std::rc::Rc;
use text_terms::RcStr;
use typing_state::{BuiltIn, Env, NoMemory, NodeRef, Parts};

/// How many parameters a built-in type has.
fn parameters_of(which: BuiltIn) -> u32
    ensures { result ≡ arity_of which }
{
    match which {
        BuiltIn::List => 1,
        _ => 0,
    }
}

/// The root of the type that a built-in type's declaration gives its parameters.
fn built_in_root(at: &mut Parts, which: BuiltIn) -> Result<NodeRef, NoMemory>
    ensures made { IfOk result (λ r. at.old.level ≡ 1 → MakesRoot (built_in_origin (number_of which)) at.old.store at.new.store r.0 (arity_of which)) }
    ensures rest { OnOk result (OnlyStore at.old at.new) }
    ensures goes { Goes at.old at.new }
{
    let origin = which.origin(at.alloc())?;
    if parameters_of(which) == 0 {
        return at.con(&origin, &[]);
    }
    let parameter = at.var()?;
    let body = at.con(&origin, &[parameter])?;
    at.tuple(&[parameter, body])
}

/// The declaration of a built-in type. Its constructors have none.
fn built_in_declaration(at: &mut Parts, which: BuiltIn) -> Result<Declaration, NoMemory>
    ensures declares { IfOk result (λ d. at.old.level ≡ 0 → DeclaresBuiltIn at.old at.new which d) }
    ensures goes { Goes at.old at.new }
{
    at.level = at.level.saturating_add(1);
    let root = built_in_root(at, which);
    at.level = at.level.saturating_sub(1);
    let root = root?;
    at.generalise(root)?;
    Ok(Declaration {
        arity: parameters_of(which),
        origin: Some(which.origin(at.alloc())?),
        defines: Some(which.origin(at.alloc())?),
        root,
        shape: Shape::Opaque,
    })
}

/// The entry of a built-in type.
fn built_in_entry(at: &mut Parts, which: BuiltIn) -> Result<Rc<Entry>, NoMemory>
    ensures entry { IfOk result (λ e. IsBuiltIn e.value which) }
    ensures declares { IfOk result (λ e. at.old.level ≡ 0 → EntersBuiltIn at.old at.new which e.value) }
    ensures goes { Goes at.old at.new }
{
    let declaration = built_in_declaration(at, which)?;
    let entry = Entry {
        name: RcStr::from_str(at.alloc(), which.name())?,
        kind: Kind::TypeName,
        place: Place::BuiltIn(which.number()),
        what: What::Type(owned(at.alloc(), declaration)?),
    };
    owned(at.alloc(), entry)
}

/// The environment of these built-in types alone, the last one newest.
fn with_all(at: &mut Parts, all: &[BuiltIn]) -> Result<Env, NoMemory>
    ensures entries { IfOk result (λ env. HasBuiltIns all.now [] env) }
    ensures declares { IfOk result (λ env. at.old.level ≡ 0 → EntersAll all.now at.old [] at.new env) }
    ensures goes { Goes at.old at.new }
{
    let mut env = Env::empty();
    for which in all {
        let entry = built_in_entry(at, *which)?;
        env = env.add(at.alloc(), entry)?;
    }
    Ok(env)
}

/// The environment of the built-in types alone, the last one newest. Nothing is recorded or reported.
pub fn built_ins(at: &mut Parts) -> Result<Env, NoMemory>
    ensures entries { IfOk result (λ env. HasBuiltIns BuiltIn.ALL [] env) }
    ensures outside { IfOk result (λ env. at.old.level ≡ 0 → StartsAmong (sight at.new) [] env (λ ch. built_in_names) []) }
    ensures constants { OnOk result (HasConstants at.old → HasConstants at.new) }
    ensures index { OnOk result (at.old.level ≡ 0 → at.new.index ≡ at.old.index) }
    ensures faults { OnOk result (at.old.level ≡ 0 → at.new.faults ≡ at.old.faults) }
    ensures goes { Goes at.old at.new }
{
    // the store is sound, as its length makes known
    let _nodes = at.store.len();
    let env = with_all(at, &BuiltIn::ALL)?;
    Ok(env)
}
