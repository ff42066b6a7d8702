//! The declaration that makes an origin, wherever it stands among the entries and in their modules, shadowed ones too.
use env_table::{Declaration, Entries, Entry, Env, NoMemory, Origin, Sig, What};
use std::rc::Rc;
use typing_state::Depth;

/// Whether a declaration makes an origin.
fn makes(declaration: &Declaration, origin: &Origin) -> bool {
    match &declaration.origin {
        Some(made) => made.path == origin.path,
        None => false,
    }
}

fn owner_if<'a>(declaration: &'a Rc<Declaration>, origin: &Origin) -> Option<&'a Rc<Declaration>> {
    if makes(declaration, origin) {
        Some(declaration)
    } else {
        None
    }
}

/// The declaration behind an entry that makes an origin.
#[cycle(owners)]
fn owner_behind<'a>(
    entry: &'a Entry,
    origin: &Origin,
    depth: Depth,
) -> Result<Option<&'a Rc<Declaration>>, NoMemory> {
    match &entry.what {
        What::Constructor(declaration, _) => Ok(owner_if(declaration, origin)),
        What::Label(declaration, _) => Ok(owner_if(declaration, origin)),
        What::Type(declaration) => Ok(owner_if(declaration, origin)),
        What::Module(sig) => match &**sig {
            Sig::Structure(_) => owner_among(sig.entries(), origin, depth.inside()?),
            _ => Ok(None),
        },
        _ => Ok(None),
    }
}

/// The newest declaration among entries that makes an origin.
#[cycle(owners)]
pub fn owner_among<'a>(
    entries: Entries<'a>,
    origin: &Origin,
    depth: Depth,
) -> Result<Option<&'a Rc<Declaration>>, NoMemory> {
    let mut rest = entries;
    while let Some((entry, older)) = rest.split_first() {
        if let Some(found) = owner_behind(entry, origin, depth)? {
            return Ok(Some(found));
        }
        rest = older;
    }
    Ok(None)
}

/// The newest declaration in an environment that makes an origin.
pub fn owner_of<'a>(
    env: &'a Env,
    origin: &Origin,
) -> Result<Option<&'a Rc<Declaration>>, NoMemory> {
    owner_among(env.entries(), origin, Depth::WHOLE)
}
