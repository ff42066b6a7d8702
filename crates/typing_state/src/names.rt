//! What names stand for.
ghost use Rattle.std.specs.Prelude.{◌≡◌, ◌-◌, [], map, option_map, IfOk, OnOk};
ghost use Rattle.text_terms.specs.Bytes.{str_bytes};
ghost use Rattle.tree_model.specs.Trees.{place};
ghost use Rattle.syntax_tree.specs.View.{place_of, tok_of};
ghost use Rattle.row_parts.specs.Numbered.{path_view};
ghost use Rattle.env_table.specs.Scopes.{lost_behind};
ghost use Rattle.typing_state.specs.Bound.{BoundIs, BoundLastIs, TellsLost, found_at, lost_among, names_of_tokens, token_at, word_of};
ghost use Rattle.typing_state.specs.Goes.{Goes, OnlyFaults};

use crate::entries::share_entry;
use crate::messages::Word;
use crate::parts::Parts;
use env_table::{Entry, Env, Found, Kind, Path};
use owned_lists::push;
use row_parts::WrittenPath;
use std::alloc::Global;
use std::rc::Rc;
use syntax_tree::{Span, Token};
use text_terms::RcStr;
use type_nodes::NoMemory;

/// The names of qualifiers.
pub fn modules_of(alloc: Global, qualifiers: &[&Token]) -> Result<Vec<RcStr>, NoMemory>
    ensures { IfOk result (λ ms. map str_bytes ms.items ≡ names_of_tokens (map (λ t. tok_of t.now) qualifiers.now)) }
{
    let mut names = Vec::new(alloc);
    for qualifier in qualifiers {
        push(&mut names, qualifier.name.share()?)?;
    }
    Ok(names)
}

/// The path of names to a last token.
pub fn path_of(alloc: Global, written: &WrittenPath<'_>, last: &Token) -> Result<Path, NoMemory>
    ensures modules { IfOk result (λ p. map str_bytes p.modules.items ≡ names_of_tokens (path_view written.now).qualifiers) }
    ensures last { IfOk result (λ p. str_bytes p.last ≡ (tok_of last.now).name) }
{
    Ok(Path {
        modules: modules_of(alloc, &written.qualifiers)?,
        last: last.name.share()?,
    })
}

/// Where the name of a qualifier stands, which ends with a point.
fn without_point(span: Span) -> Span
    ensures { place_of result ≡ place span.start (span.end - 1) }
{
    Span {
        start: span.start,
        end: span.end.saturating_sub(1),
    }
}

/// The first qualifier of a path that leads to no module.
fn lost_qualifier<'a>(env: &Env, path: &Path, written: &WrittenPath<'a>) -> Option<&'a Token>
    ensures first { option_map (λ t. tok_of t.now) result ≡ token_at (path_view written.now).qualifiers (lost_behind env.now [] 0 (map str_bytes path.now.modules.items)) }
{
    match env.lost_module(&path.modules) {
        Some(place) => written.qualifiers.get(place).copied(),
        None => None,
    }
}

/// What a word of messages names.
fn word_of(kind: Kind) -> Word
    ensures { result ≡ word_of kind }
{
    match kind {
        Kind::Value => Word::Value,
        Kind::Constructor => Word::Constructor,
        Kind::Label => Word::Label,
        Kind::TypeName => Word::Type,
        Kind::Module => Word::Module,
        Kind::ModuleType => Word::ModuleType,
    }
}

impl Parts {
    /// The demand `bound` of a path. The entry that it finds; None where it stands in a hole, and where it finds nothing, which
    /// is reported at the first qualifier that leads to no module, or else at the last name.
    pub fn bound(
        &mut self,
        env: &Env,
        written: &WrittenPath<'_>,
        last: &Token,
        kind: Kind,
    ) -> Result<Option<Rc<Entry>>, NoMemory>
        ensures verdict { IfOk result (λ r. BoundIs (found_at env.now (path_view written.now).qualifiers kind (tok_of last.now)) (option_map (λ e. e.value) r) self.old self.new (lost_among env.now (path_view written.now).qualifiers) (tok_of last.now) (word_of kind)) }
        ensures goes { Goes self.old self.new }
    {
        let path = path_of(self.alloc, written, last)?;
        match env.lookup(&path, kind) {
            Found::Entry(entry) => Ok(Some(share_entry(entry)?)),
            Found::Hole => Ok(None),
            Found::Nothing => {
                self.lost(env, &path, written, last, word_of(kind))?;
                Ok(None)
            }
        }
    }

    /// The same where the last name is written; None where it isn't.
    pub fn bound_last(
        &mut self,
        env: &Env,
        written: &WrittenPath<'_>,
        kind: Kind,
    ) -> Result<Option<Rc<Entry>>, NoMemory>
        ensures verdict { IfOk result (λ r. BoundLastIs (path_view written.now).last kind (option_map (λ e. e.value) r) self.old self.new env.now (path_view written.now).qualifiers) }
        ensures goes { Goes self.old self.new }
    {
        match written.last {
            Some(last) => self.bound(env, written, last, kind),
            None => Ok(None),
        }
    }

    /// Reports a path that finds nothing.
    pub fn lost(
        &mut self,
        env: &Env,
        path: &Path,
        written: &WrittenPath<'_>,
        last: &Token,
        word: Word,
    ) -> Result<(), NoMemory>
        ensures told { OnOk result (TellsLost (token_at (path_view written.now).qualifiers (lost_behind env.now [] 0 (map str_bytes path.now.modules.items))) self.old self.new (tok_of last.now) word) }
        ensures rest { OnlyFaults self.old self.new }
        ensures goes { Goes self.old self.new }
    {
        match lost_qualifier(env, path, written) {
            Some(token) => {
                self.unbound(without_point(token.span), Word::Module, token.name.as_str())
            }
            None => self.unbound(last.span, word, last.name.as_str()),
        }
    }

    /// What the name tokens of a path stand for: each qualifier, and then the last token, whose entry is given.
    pub fn seen_names(
        &self,
        env: &Env,
        written: &WrittenPath<'_>,
        last: Option<&Rc<Entry>>,
    ) -> Result<Vec<Option<Rc<Entry>>>, NoMemory> {
        let modules = modules_of(self.alloc, &written.qualifiers)?;
        let mut names = Vec::new(self.alloc);
        for module in env.modules_along(self.alloc, &modules)? {
            let entry = match module {
                Found::Entry(entry) => Some(share_entry(entry)?),
                _ => None,
            };
            push(&mut names, entry)?;
        }
        if written.last.is_some() {
            let entry = match last {
                Some(entry) => Some(share_entry(entry)?),
                None => None,
            };
            push(&mut names, entry)?;
        }
        Ok(names)
    }

    /// The one name token of a node with its entry.
    pub fn one_name(&self, entry: Option<&Rc<Entry>>) -> Result<Vec<Option<Rc<Entry>>>, NoMemory> {
        let mut names = Vec::new(self.alloc);
        let entry = match entry {
            Some(entry) => Some(share_entry(entry)?),
            None => None,
        };
        push(&mut names, entry)?;
        Ok(names)
    }
}
