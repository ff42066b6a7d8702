//! Paths to modules and module types.
ghost use Rattle.typing_state.specs.Goes.{Goes};

use env_table::{Entry, Kind, Sig, Template, What};
use owned_lists::owned;
use row_parts::written_path;
use sig_template::{owned_sig, share_sig, share_template};
use std::rc::Rc;
use syntax_tree::Node;
use typing_state::{Env, NoMemory, Parts};

/// The signature of the module that a path in two slots of a node finds; what isn't found isn't known.
pub fn module_path(
    at: &mut Parts,
    node: &Node,
    number: u32,
    qualifiers: u8,
    last: u8,
    env: &Env,
) -> Result<Rc<Sig>, NoMemory>
    ensures goes { Goes at.old at.new }
{
    match path_entry(at, node, number, qualifiers, last, Kind::Module, env)? {
        Some(entry) => match &entry.what {
            What::Module(sig) => share_sig(sig),
            _ => owned_sig(at, Sig::Hole),
        },
        None => owned_sig(at, Sig::Hole),
    }
}

/// The template of the module type that a path finds.
pub fn module_type_path(
    at: &mut Parts,
    node: &Node,
    number: u32,
    qualifiers: u8,
    last: u8,
    env: &Env,
) -> Result<Rc<Template>, NoMemory>
    ensures goes { Goes at.old at.new }
{
    if let Some(entry) = path_entry(at, node, number, qualifiers, last, Kind::ModuleType, env)? {
        if let What::ModuleType(template) = &entry.what {
            return share_template(template);
        }
    }
    let template = Template {
        made: Vec::new(at.alloc()),
        sig: owned_sig(at, Sig::Hole)?,
    };
    owned(at.alloc(), template)
}

/// The entry that a path finds, with its demand `bound`; the node is recorded.
fn path_entry(
    at: &mut Parts,
    node: &Node,
    number: u32,
    qualifiers: u8,
    last: u8,
    kind: Kind,
    env: &Env,
) -> Result<Option<Rc<Entry>>, NoMemory>
    ensures goes { Goes at.old at.new }
{
    let path = written_path(at.alloc(), node, qualifiers, last)?;
    let entry = at.bound_last(env, &path, kind)?;
    let names = at.seen_names(env, &path, entry.as_ref())?;
    at.note(number, env, None, names)?;
    Ok(entry)
}
