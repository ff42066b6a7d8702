//! The names that are bound so far.
ghost use Rattle.std.specs.Prelude.{◌≡◌, option_map};
ghost use Rattle.plain_model.specs.Plain as plain;
ghost use Rattle.syntax_tree.specs.View.{tok_of};
ghost use Rattle.plain_typing.specs.View.{env_of, plain_of};

use crate::Plain;
use crate::kinds::{is_lower, literal_type};
use syntax_tree::Token;

/// A name with its type.
#[derive(Clone, Copy)]
pub(crate) struct Typed<'a> {
    pub(crate) name: &'a str,
    pub(crate) ty: Plain,
}

/// The type of a value, where `env` has the earlier names, the newest last.
/// None where it is a name that isn't among them.
pub(crate) fn type_of(env: &[Typed], value: &Token) -> Option<Plain>
    ensures { option_map plain_of result ≡ plain.type_of (env_of env.now) (tok_of value.now) }
{
    match literal_type(value.kind) {
        Some(ty) => Some(ty),
        None if is_lower(value.kind) => type_in(env, value.name.as_str()),
        None => None,
    }
}

fn type_in(env: &[Typed], name: &str) -> Option<Plain>
    ensures { option_map plain_of result ≡ plain.type_in (env_of env.now) name.now }
{
    let mut older = env;
    while let [rest @ .., newest] = older {
        if newest.name == name {
            return Some(newest.ty);
        }
        older = rest;
    }
    None
}
