//! Why a signature doesn't match.
ghost use Rattle.std.specs.Prelude.{◌≡◌, [], map, IfOk, string_bytes};
ghost use Rattle.std.specs.List.{join_with_byte};
ghost use Rattle.text_terms.specs.Bytes.{str_bytes};
ghost use Rattle.signature_model.specs.Failing.{blame, inside};
ghost use Rattle.signature_match.specs.Blames.{cause_of, blame_of};

use owned_lists::push;
use std::alloc::{AllocError, Global};
use text_terms::RcStr;
use typing_state::NoMemory;

/// What is wrong with a component.
#[derive(Clone, Copy, Debug, PartialEq, Eq)]
pub enum Cause {
    Absent,
    TypeArity,
    TypeDiffers,
    ValueDiffers,
    ExceptionDiffers,
    KindDiffers,
    ModuleTypeDiffers,
}

/// The first component that fails: the names that lead to it, the outermost first, and the cause. The path of a whole module is
/// empty.
#[derive(Drop)]
pub struct Mismatch {
    pub path: Vec<RcStr>,
    pub cause: Cause,
}

impl Mismatch {
    /// The component that stands here.
    pub fn here(alloc: Global, cause: Cause) -> Mismatch
        ensures { blame_of result ≡ blame [] (cause_of cause) }
    {
        Mismatch {
            path: Vec::new(alloc),
            cause,
        }
    }

    /// The same from one module further out.
    pub fn inside(self, alloc: Global, name: &RcStr) -> Result<Mismatch, NoMemory>
        ensures { IfOk result (λ m. blame_of m ≡ inside (str_bytes name.now) (blame_of self)) }
    {
        let mut path = Vec::new(alloc);
        push(&mut path, name.share()?)?;
        for member in self.path {
            push(&mut path, member)?;
        }
        Ok(Mismatch {
            path,
            cause: self.cause,
        })
    }

    /// The path with points between its names.
    pub fn text(&self, alloc: Global) -> Result<String, NoMemory>
        ensures { IfOk result (λ s. string_bytes s ≡ join_with_byte 46 (map str_bytes self.now.path.items)) }
    {
        let mut text = String::new(alloc);
        for (place, name) in self.path.iter().enumerate() {
            if place > 0 {
                text.push_str(".").map_err(|_| AllocError)?;
            }
            text.push_str(name.as_str()).map_err(|_| AllocError)?;
        }
        Ok(text)
    }
}
