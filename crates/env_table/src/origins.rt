//! The origins that entries make.
ghost use Rattle.std.specs.Prelude.{◌≡◌, ◌<◌, option_map};
ghost use Rattle.type_terms.specs.Views.{path_of};
ghost use Rattle.env_table.specs.Views.{makes};
ghost use Rattle.env_table.specs.Index.{hash_of_path};

use crate::entries::{Entry, What};
use type_nodes::Origin;

impl Entry {
    /// The origin that its declaration makes; None where it is another type, and where the entry is no type.
    pub fn makes(&self) -> Option<&Origin>
        ensures { option_map (λ o. path_of o.now) result ≡ makes self.now }
    {
        match &self.what {
            What::Type(declaration) => declaration.origin.as_ref(),
            What::Scheme(_) => None,
            What::Constructor(_, _) => None,
            What::Exception(_) => None,
            What::Label(_, _) => None,
            What::Module(_) => None,
            What::ModuleType(_) => None,
        }
    }
}

/// A number below 2^16 for an origin.
pub(crate) fn origin_hash(origin: &Origin) -> u32
    ensures { result ≡ hash_of_path (path_of origin.now) }
{
    let mut hash = 0;
    for number in &origin.path {
        let folded = (*number / 4_294_967_296 + *number % 4_294_967_296) % 65536;
        hash = (hash * 403 + folded as u32) % 65536;
    }
    hash
}
