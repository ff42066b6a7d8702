//! Where the names of a text come from, and where else they stand.
ghost use Rattle.std.specs.Prelude.{◌≡◌, ◌++◌, ◌∷◌, [], filter, map, IfOk, OnOk, if◌then◌else◌};
ghost use Rattle.query_model.specs.NameTokens.{name_round, text_names};
ghost use Rattle.syntax_tree.specs.View.{place_of, trees_of};
ghost use Rattle.name_queries.specs.NameTokens.{name_of};
ghost use Rattle.name_queries.specs.Places.{entry_place, is_defined_at, same_place, IsUnbound, MeetsName};

use crate::name_tokens::{NameToken, name_round, text_names};
use env_table::Place;
use query_engine::{Asked, QueryFault};
use std::alloc::{AllocError, Global};
use syntax_tree::{NoMemory, Span};

/// Where the entry of a name is defined. None where its lookup finds nothing or a hole.
fn entry_place(asked: &Asked<'_>, name: &NameToken) -> Option<Place>
    ensures { result ≡ entry_place asked.now.index.now (name_of name.now) }
{
    let seen = asked.index.get(name.node)?;
    match seen.names.get(name.index as usize) {
        Some(Some(entry)) => Some(entry.place),
        Some(None) => None,
        None => None,
    }
}

/// Why there is no place for a name.
fn unbound(name: &NameToken) -> QueryFault
    ensures { IsUnbound (name_of name.now) result }
{
    match name.name.share() {
        Ok(ident) => QueryFault::Unbound { ident },
        Err(_) => QueryFault::NoMemory,
    }
}

fn same_place(place: Place, other: Place) -> bool
    ensures { result ≡ same_place place other }
{
    match (place, other) {
        (Place::Buffer(span), Place::Buffer(against)) => span == against,
        (Place::Prelude(span), Place::Prelude(against)) => span == against,
        (Place::BuiltIn(number), Place::BuiltIn(against)) => number == against,
        _ => false,
    }
}

/// Whether the entry of a name is defined at a place.
fn is_defined_at(asked: &Asked<'_>, place: Place, name: &NameToken) -> bool
    ensures { result ≡ is_defined_at (entry_place asked.now.index.now) place (name_of name.now) }
{
    match entry_place(asked, name) {
        None => false,
        Some(other) => same_place(place, other),
    }
}

/// Puts the span of a name behind others, if its entry is defined at a place.
fn keep(
    asked: &Asked<'_>,
    place: Place,
    name: &NameToken,
    spans: &mut Vec<Span>,
) -> Result<(), NoMemory>
    ensures { OnOk result (map place_of spans.new.items
        ≡ map place_of spans.old.items ++ (if is_defined_at (entry_place asked.now.index.now) place (name_of name.now) then (name_of name.now).span ∷ [] else [])) }
{
    if !is_defined_at(asked, place, name) {
        return Ok(());
    }
    match spans.push(name.span) {
        Ok(()) => Ok(()),
        Err(_) => Err(AllocError),
    }
}

/// The spans of those of these names whose entries are defined at a place.
fn spans_defined_at(
    alloc: Global,
    asked: &Asked<'_>,
    place: Place,
    names: &[NameToken],
) -> Result<Vec<Span>, NoMemory>
    ensures { IfOk result (λ v. map place_of v.items ≡ map (λ n. n.span) (filter (is_defined_at (entry_place asked.now.index.now) place) (map name_of names.now))) }
{
    let mut spans = Vec::new(alloc);
    for name in names {
        keep(asked, place, name, &mut spans)?;
    }
    Ok(spans)
}

/// Where the name at the offset, in bytes from 0, is defined. `NotAName` where there is none, `Unbound` where its lookup
/// finds nothing or a hole.
pub fn locate(alloc: Global, asked: &Asked<'_>, offset: u32) -> Result<Place, QueryFault>
    ensures { MeetsName (λ p place. place ≡ p) (entry_place asked.now.index.now) result (name_round offset (text_names (trees_of asked.now.tree.now))) }
{
    let Ok(names) = text_names(alloc, asked.tree) else {
        return Err(QueryFault::NoMemory);
    };
    match name_round(&names, offset) {
        None => Err(QueryFault::NotAName),
        Some(name) => match entry_place(asked, name) {
            Some(place) => Ok(place),
            None => Err(unbound(name)),
        },
    }
}

/// Where the names stand that are defined where the one at the offset, in bytes from 0, is: in text order, with the definition
/// where it stands in the text. The faults are those of `locate`.
pub fn occurrences(alloc: Global, asked: &Asked<'_>, offset: u32) -> Result<Vec<Span>, QueryFault>
    ensures { MeetsName (λ p v. map place_of v.items ≡ map (λ n. n.span) (filter (is_defined_at (entry_place asked.now.index.now) p) (text_names (trees_of asked.now.tree.now))))
        (entry_place asked.now.index.now) result (name_round offset (text_names (trees_of asked.now.tree.now))) }
{
    let Ok(names) = text_names(alloc, asked.tree) else {
        return Err(QueryFault::NoMemory);
    };
    match name_round(&names, offset) {
        None => Err(QueryFault::NotAName),
        Some(name) => match entry_place(asked, name) {
            Some(place) => match spans_defined_at(alloc, asked, place, &names) {
                Ok(spans) => Ok(spans),
                Err(_) => Err(QueryFault::NoMemory),
            },
            None => Err(unbound(name)),
        },
    }
}
