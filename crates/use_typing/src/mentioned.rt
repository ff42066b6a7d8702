//! Names that are written one after another, each of which is found at once.
ghost use Rattle.std.specs.Prelude.{◌≡◌, [], ◌∷◌, ◌++◌, length, slice_get, take, drop, true, false, IfOk, OnOk};
ghost use Rattle.syntax_tree.specs.View.{tok_of};
ghost use Rattle.use_typing.specs.Labels.{is_named_in, toks_of};
ghost use Rattle.use_typing.specs.Mentions.{named_at};

use owned_lists::push;
use std::alloc::{AllocError, Global};
use std::collections::HashMap;
use std::marker::Model;
use syntax_tree::Token;
use typing_state::NoMemory;

/// The tokens of some names, in order.
#[derive(Drop)]
pub struct Mentioned<'a> {
    tokens: Vec<&'a Token>,
    /// Where each name is first. A name that was taken out may still have a place, at which another token is, or none.
    places: HashMap<&'a str, usize>,
}

impl<'a> Model for Mentioned<'a> {
    ghost use Rattle.use_typing.specs.Mentions.{Mentions, HasPlaces};
    ghost use Rattle.use_typing.specs.Labels.{toks_of};

    ghost Value = { Mentions };

    ghost view = { λ m. record { items = m.tokens.items } };

    ghost invariant = { λ m. HasPlaces m.places (toks_of m.tokens.items) };
}

impl<'a> Mentioned<'a> {
    /// No name.
    pub fn new(alloc: Global) -> Mentioned<'a>
        ensures items { result.items ≡ [] }
    {
        Mentioned {
            tokens: Vec::new(alloc),
            places: HashMap::new(alloc),
        }
    }

    /// How many tokens there are.
    pub fn len(&self) -> usize
        ensures { result ≡ length self.now.items }
    {
        self.tokens.len()
    }

    /// Whether a name is one of them.
    pub fn has(&self, name: &str) -> bool
        ensures { result ≡ is_named_in name.now (toks_of self.now.items) }
    {
        match self.places.get(name) {
            Some(place) => is_name_at(&self.tokens, *place, name),
            None => false,
        }
    }

    /// Puts a token behind the others. Whether its name is one of them.
    pub fn push(&mut self, token: &'a Token) -> Result<bool, NoMemory>
        ensures again { IfOk result (λ again. again ≡ is_named_in (tok_of token.now).name (toks_of self.old.items)) }
        ensures pushed { OnOk result (self.new.items ≡ self.old.items ++ token.entry ∷ []) }
    {
        if self.has(token.name.as_str()) {
            self.push_again(token)?;
            Ok(true)
        } else {
            self.push_new(token)?;
            Ok(false)
        }
    }

    /// Puts a token behind the others whose name is one of them.
    fn push_again(&mut self, token: &'a Token) -> Result<(), NoMemory>
        requires again { is_named_in (tok_of token.now).name (toks_of self.old.items) ≡ true }
        ensures { OnOk result (self.new.items ≡ self.old.items ++ token.entry ∷ []) }
    {
        push(&mut self.tokens, token)
    }

    /// Puts a token behind the others whose name is none of them.
    fn push_new(&mut self, token: &'a Token) -> Result<(), NoMemory>
        requires new { is_named_in (tok_of token.now).name (toks_of self.old.items) ≡ false }
        ensures { OnOk result (self.new.items ≡ self.old.items ++ token.entry ∷ []) }
    {
        match self.places.insert(token.name.as_str(), self.tokens.len()) {
            Ok(_) => push(&mut self.tokens, token),
            Err(_) => Err(AllocError),
        }
    }

    /// Moves the tokens behind a place to the end of others.
    pub fn keep_apart(&mut self, before: usize, others: &mut Mentioned<'a>) -> Result<(), NoMemory>
        ensures kept { OnOk result (self.new.items ≡ take before self.old.items) }
        ensures moved { OnOk result (others.new.items ≡ others.old.items ++ drop before self.old.items) }
    {
        push_all(others, &self.tokens, before)?;
        self.tokens.truncate(before);
        Ok(())
    }

    /// Puts the tokens of others behind these.
    pub fn append(&mut self, more: &Mentioned<'a>) -> Result<(), NoMemory>
        ensures { OnOk result (self.new.items ≡ self.old.items ++ more.now.items) }
    {
        push_all(self, &more.tokens, 0)
    }
}

/// Whether the token at a place has a name.
fn is_name_at(tokens: &[&Token], place: usize, name: &str) -> bool
    ensures { result ≡ named_at name.now (slice_get (toks_of tokens.now) place) }
{
    match tokens.get(place) {
        Some(token) => token.name.is(name),
        None => false,
    }
}

/// Puts the tokens behind a place at the end of others.
fn push_all<'a>(
    others: &mut Mentioned<'a>,
    tokens: &[&'a Token],
    before: usize,
) -> Result<(), NoMemory>
    ensures { OnOk result (others.new.items ≡ others.old.items ++ drop before tokens.now) }
{
    for place in before..tokens.len() {
        others.push(tokens[place])?;
    }
    Ok(())
}
