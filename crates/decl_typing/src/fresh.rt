//! Names of one declaration, each of which must be new.
ghost use Rattle.std.specs.Prelude.{◌≡◌, if◌then◌else◌, true, OnOk};
ghost use Rattle.std.specs.Str.{bytes_eq};
ghost use Rattle.text_terms.specs.Bytes.{str_bytes};
ghost use Rattle.signature_model.specs.Declarations.{Name};
ghost use Rattle.typing_state.specs.Goes.{Goes, OnlyFaults};
ghost use Rattle.decl_typing.specs.Fresh.{has, AsksNew};

use std::alloc::AllocError;
use std::collections::HashSet;
use syntax_tree::Token;
use type_nodes::NoMemory;
use typing_state::Parts;

/// The demand that a name is none of those before it; it is one of them afterwards.
pub fn ask_new<'a>(
    at: &mut Parts,
    names: &mut HashSet<&'a str>,
    name: &'a Token,
) -> Result<(), NoMemory>
    ensures asked { OnOk result (AsksNew (has names.old (str_bytes name.now.name)) name.now at.old at.new) }
    ensures added { OnOk result ((q : Name) → has names.new q ≡ (if bytes_eq (str_bytes name.now.name) q then true else has names.old q)) }
    ensures rest { OnlyFaults at.old at.new }
    ensures goes { Goes at.old at.new }
{
    let text = name.name.as_str();
    if names.contains(text) {
        return at.twice(name.span, text);
    }
    match names.insert(text) {
        Ok(_) => Ok(()),
        Err(_) => Err(AllocError),
    }
}
