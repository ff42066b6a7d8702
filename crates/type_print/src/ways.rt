//! The ways that lead into modules.
ghost use Rattle.std.specs.Prelude.{◌≡◌, ◌∷◌, ◌++◌, [], map, string_bytes, IfOk, OnOk};
ghost use Rattle.text_terms.specs.Bytes.{str_bytes};
ghost use Rattle.type_print.specs.Ways.{way_view, step_view};
ghost use Rattle.type_print.specs.Paths.{way_text};

use crate::cut::push;
use std::alloc::{AllocError, Global};
use std::rc::Rc;
use text_terms::{NoMemory, RcStr};

/// The modules on the way, the innermost first.
pub(crate) type Way = Option<Rc<Step>>;

/// A module, and those round it.
pub(crate) struct Step {
    name: RcStr,
    outer: Way,
}

// Modules may stand in each other as deep as a text is long, so no call is made for each.
impl Drop for Step {
    fn drop(mut self) {
        loop {
            match self {
                Step { name: _, outer } => match outer {
                    None => return,
                    Some(step) => match Rc::into_inner(step) {
                        None => return,
                        Some(rest) => self = rest,
                    },
                },
            }
        }
    }
}

fn share(way: &Way) -> Result<Way, NoMemory>
    ensures { IfOk result (λ w. way_view w ≡ way_view way.now) }
{
    match way {
        None => Ok(None),
        Some(step) => match Rc::clone(step) {
            Ok(step) => Ok(Some(step)),
            Err(_) => Err(AllocError),
        },
    }
}

/// The way into a module behind another way.
pub(crate) fn into_module(alloc: Global, name: &RcStr, way: &Way) -> Result<Way, NoMemory>
    ensures { IfOk result (λ w. way_view w ≡ str_bytes name.now ∷ way_view way.now) }
{
    let step = Step {
        name: name.share()?,
        outer: share(way)?,
    };
    match Rc::new(alloc, step) {
        Ok(step) => Ok(Some(step)),
        Err(_) => Err(AllocError),
    }
}

/// The names of a way, with a point behind each, the outermost first.
pub(crate) fn text_of_way(alloc: Global, way: &Way) -> Result<String, NoMemory>
    ensures { IfOk result (λ s. string_bytes s ≡ way_text (way_view way.now)) }
{
    let names = names_of_way(alloc, way)?;
    let mut text = String::new(alloc);
    let mut k = names.len();
    while k > 0 {
        k -= 1;
        push(&mut text, names[k].as_str())?;
        push(&mut text, ".")?;
    }
    Ok(text)
}

fn names_of_way(alloc: Global, way: &Way) -> Result<Vec<RcStr>, NoMemory>
    ensures { IfOk result (λ ns. map str_bytes ns.items ≡ way_view way.now) }
{
    let mut names = Vec::new(alloc);
    let mut rest = way;
    while let Some(step) = rest {
        add_name(&mut names, &step.name)?;
        rest = &step.outer;
    }
    Ok(names)
}

fn add_name(names: &mut Vec<RcStr>, name: &RcStr) -> Result<(), NoMemory>
    ensures { OnOk result (map str_bytes names.new.items ≡ map str_bytes names.old.items ++ str_bytes name.now ∷ []) }
{
    names.push(name.share()?).map_err(|_| AllocError)
}
