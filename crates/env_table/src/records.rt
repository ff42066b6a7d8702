//! Which record type some labels belong to.
ghost use Rattle.std.specs.Prelude.{◌≡◌, map, option_map, Option, Some, None};
ghost use Rattle.text_terms.specs.Bytes.{str_bytes};
ghost use Rattle.type_terms.specs.Views.{path_of};
ghost use Rattle.signature_model.specs.Lookups.{newest_by};
ghost use Rattle.signature_model.specs.Records.{first_path, path_for, is_label_of, has_label, has_each, belongs_to, has_name, newest_label, is_there, is_known, each_scope, is_of_type, record_by};
ghost use Rattle.env_table.specs.Views.{names_of, found_view, kind_of};
ghost use Rattle.env_table.specs.Scopes.{scope_view};
ghost use Rattle.env_table.specs.Labels.{labelled, record_of, written_of, front_of, scope_for, has_all, candidates};

use crate::entries::{Entry, Found, Kind, Path, What};
use crate::env::Env;
use crate::lookup::{Scope, found};
use crate::walk::Entries;
use std::rc::Rc;
use text_terms::RcStr;
use type_nodes::Origin;

impl Env {
    /// The newest record type that has every label, told by the entry of the first label in it; without labels the newest record
    /// type in scope. A label without modules beside labels with some has the first such path. It is nothing where there is no such
    /// type or a label's module isn't there, and otherwise a hole where one of these modules isn't known.
    pub fn record_type(&self, labels: &[Path]) -> Found<'_>
        ensures { found_view result ≡ record_by labelled (self.now) (scope_for (self.now) (map written_of labels.now)) (map written_of labels.now) }
    {
        let front = front_of(self, labels);
        if !all_are_there(self, labels, front) {
            return Found::Nothing;
        }
        if !all_are_known(self, labels, front) {
            return Found::Hole;
        }
        match labels.first() {
            None => newest_label(self, labels, front, None, Scope::Env(self)),
            Some(first) => newest_label(
                self,
                labels,
                front,
                Some(first.last.as_str()),
                scope_of(self, labels, front, first),
            ),
        }
    }
}

/// The first path of modules that a label has.
fn first_path(labels: &[Path]) -> &[RcStr]
    ensures { map str_bytes result.now ≡ first_path (map written_of labels.now) }
{
    for label in labels {
        if !label.modules.is_empty() {
            return &label.modules;
        }
    }
    &[]
}

/// Where labels without modules of their own are looked for. It is found once for all of them.
fn front_of<'a>(env: &'a Env, labels: &[Path]) -> Scope<'a>
    ensures { scope_view result ≡ front_of env.now (map written_of labels.now) }
{
    env.scope_behind(first_path(labels))
}

/// Where a label is looked for.
fn scope_of<'a>(env: &'a Env, labels: &[Path], front: Scope<'a>, label: &Path) -> Scope<'a>
    requires front { scope_view front ≡ front_of env.now (map written_of labels.now) }
    ensures { scope_view result ≡ scope_for env.now (map written_of labels.now) (written_of label.now) }
{
    if label.modules.is_empty() {
        front
    } else {
        env.scope_behind(&label.modules)
    }
}

fn all_are_there(env: &Env, labels: &[Path], front: Scope<'_>) -> bool
    requires front { scope_view front ≡ front_of env.now (map written_of labels.now) }
    ensures { result ≡ each_scope is_there (scope_for env.now (map written_of labels.now)) (map written_of labels.now) }
{
    for label in labels {
        if !is_there(scope_of(env, labels, front, label)) {
            return false;
        }
    }
    true
}

fn all_are_known(env: &Env, labels: &[Path], front: Scope<'_>) -> bool
    requires front { scope_view front ≡ front_of env.now (map written_of labels.now) }
    ensures { result ≡ each_scope is_known (scope_for env.now (map written_of labels.now)) (map written_of labels.now) }
{
    for label in labels {
        if !is_known(scope_of(env, labels, front, label)) {
            return false;
        }
    }
    true
}

fn is_there(scope: Scope<'_>) -> bool
    ensures { result ≡ is_there (scope_view scope.entry) }
{
    match scope {
        Scope::Absent => false,
        _ => true,
    }
}

fn is_known(scope: Scope<'_>) -> bool
    ensures { result ≡ is_known (scope_view scope.entry) }
{
    match scope {
        Scope::Unknown => false,
        _ => true,
    }
}

/// The newest label in a scope, of the name where one is given, whose record type has every label.
#[tactic(auto, using(crate::proofs::Newest::newest_with_all))]
fn newest_label<'a>(
    env: &Env,
    labels: &[Path],
    front: Scope<'_>,
    name: Option<&str>,
    scope: Scope<'a>,
) -> Found<'a>
    requires front { scope_view front ≡ front_of env.now (map written_of labels.now) }
    ensures { found_view result ≡ newest_label labelled (scope_for env.now (map written_of labels.now)) (map written_of labels.now) (option_map (λ n. n.now) name.entry) (scope_view scope.entry) }
{
    match scope {
        Scope::Env(among) => found(newest_with_all(
            env,
            labels,
            front,
            name,
            candidates(among, name),
        )),
        Scope::Inside(entries) => found(newest_with_all(env, labels, front, name, entries)),
        Scope::Unknown => Found::Hole,
        Scope::Absent => Found::Nothing,
    }
}

/// The entries among which the newest label is, of the name where one is given.
fn candidates<'a>(env: &'a Env, name: Option<&str>) -> Entries<'a>
    ensures { names_of result ≡ candidates (option_map (λ n. n.now) name.entry) env.now }
{
    match name {
        None => env.entries(),
        Some(name) => env.with_hash(Kind::Label, name),
    }
}

fn newest_with_all<'a>(
    env: &Env,
    labels: &[Path],
    front: Scope<'_>,
    name: Option<&str>,
    among: Entries<'a>,
) -> Option<&'a Rc<Entry>>
    requires front { scope_view front ≡ front_of env.now (map written_of labels.now) }
    ensures { option_map (λ e. e.now.value) result ≡ newest_by (has_all env.now (map written_of labels.now) (option_map (λ n. n.now) name.entry)) (names_of among.entry) }
{
    let mut rest = among;
    while let Some((entry, older)) = rest.split_first() {
        if has_all(env, labels, front, name, entry) {
            return Some(entry);
        }
        rest = older;
    }
    None
}

/// Whether an entry is a label, of the name where one is given, whose record type has every label.
fn has_all(env: &Env, labels: &[Path], front: Scope<'_>, name: Option<&str>, entry: &Entry) -> bool
    requires front { scope_view front ≡ front_of env.now (map written_of labels.now) }
    ensures { result ≡ has_all env.now (map written_of labels.now) (option_map (λ n. n.now) name.entry) entry.now }
{
    has_name(name, entry.name.as_str()) && belongs_to(env, labels, front, record_of(entry))
}

fn has_name(wanted: Option<&str>, name: &str) -> bool
    ensures { result ≡ has_name (option_map (λ n. n.now) wanted.entry) name.now }
{
    match wanted {
        None => true,
        Some(wanted) => wanted == name,
    }
}

fn belongs_to(env: &Env, labels: &[Path], front: Scope<'_>, made: Option<&Origin>) -> bool
    requires front { scope_view front ≡ front_of env.now (map written_of labels.now) }
    ensures { result ≡ belongs_to labelled (scope_for env.now (map written_of labels.now)) (map written_of labels.now) (option_map (λ o. path_of o.now) made.entry) }
{
    match made {
        None => false,
        Some(made) => has_each(env, labels, front, made),
    }
}

/// Whether a record type has every label.
fn has_each(env: &Env, labels: &[Path], front: Scope<'_>, made: &Origin) -> bool
    requires front { scope_view front ≡ front_of env.now (map written_of labels.now) }
    ensures { result ≡ has_each labelled (scope_for env.now (map written_of labels.now)) (path_of made.now) (map written_of labels.now) }
{
    for label in labels {
        if !has_label(
            made,
            label.last.as_str(),
            scope_of(env, labels, front, label),
        ) {
            return false;
        }
    }
    true
}

#[tactic(auto, using(crate::proofs::Newest::newest_label_of))]
fn has_label(made: &Origin, name: &str, scope: Scope<'_>) -> bool
    ensures { result ≡ has_label labelled (path_of made.now) name.now (scope_view scope.entry) }
{
    match scope {
        Scope::Env(env) => { newest_of_record(candidates(env, Some(name)), made, name).is_some() }
        Scope::Inside(entries) => newest_of_record(entries, made, name).is_some(),
        Scope::Unknown => false,
        Scope::Absent => false,
    }
}

fn newest_of_record<'a>(among: Entries<'a>, made: &Origin, name: &str) -> Option<&'a Rc<Entry>>
    ensures { option_map (λ e. e.now.value) result ≡ newest_by (is_label_of labelled (path_of made.now) name.now) (names_of among.entry) }
{
    let mut rest = among;
    while let Some((entry, older)) = rest.split_first() {
        if is_label_of(entry, made, name) {
            return Some(entry);
        }
        rest = older;
    }
    None
}

fn is_label_of(entry: &Entry, made: &Origin, name: &str) -> bool
    ensures { result ≡ is_label_of labelled (path_of made.now) name.now entry.now }
{
    name == entry.name.as_str() && is_of_type(made, record_of(entry))
}

fn is_of_type(made: &Origin, other: Option<&Origin>) -> bool
    ensures { result ≡ is_of_type (path_of made.now) (option_map (λ o. path_of o.now) other.entry) }
{
    match other {
        None => false,
        Some(other) => made.path == other.path,
    }
}

/// The origin of the record type that a label belongs to; None where the entry is no label, or its type is no constructor.
fn record_of(entry: &Entry) -> Option<&Origin>
    ensures { option_map (λ o. path_of o.now) result ≡ record_of entry.now }
{
    match entry.kind {
        Kind::Label => match &entry.what {
            What::Label(declaration, _) => declaration.defines.as_ref(),
            _ => None,
        },
        _ => None,
    }
}
