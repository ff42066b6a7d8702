//! Further owners.
ghost use Rattle.std.specs.Prelude.{◌≡◌, [], IfOk};

use env_table::{Declaration, Sig, Template};
use owned_lists::shared;
use std::rc::Rc;
use type_reading::Changes;
use typing_state::{NoMemory, Parts};

pub fn share_declaration(declaration: &Rc<Declaration>) -> Result<Rc<Declaration>, NoMemory>
    ensures { IfOk result (λ r. r.value ≡ declaration.now.value) }
{
    shared(declaration)
}

pub fn share_sig(sig: &Rc<Sig>) -> Result<Rc<Sig>, NoMemory>
    ensures { IfOk result (λ r. r.value ≡ sig.now.value) }
{
    shared(sig)
}

pub fn share_template(template: &Rc<Template>) -> Result<Rc<Template>, NoMemory>
    ensures { IfOk result (λ r. r.value ≡ template.now.value) }
{
    shared(template)
}

/// No change.
pub(crate) fn no_changes(at: &Parts) -> Changes
    ensures made { result.made.items ≡ [] }
    ensures real { result.real.items ≡ [] }
{
    Changes {
        made: Vec::new(at.alloc()),
        number: 0,
        real: Vec::new(at.alloc()),
    }
}
