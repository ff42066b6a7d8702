//! The types of types, and nothing else.
use text_terms::RcStr;

/// A node of a store of types: its number, from 0.
#[derive(Clone, Copy, Debug, PartialEq, Eq)]
pub struct NodeRef(pub u64);

/// Where a type constructor was made, and the name that its declaration gives it.
/// Origins are compared by their paths, and equal paths have equal names.
#[derive(Drop)]
pub struct Origin {
    pub path: Vec<u64>,
    pub name: RcStr,
}

/// A type, without abbreviations.
#[derive(Drop)]
pub enum Ty {
    /// 'a
    Var(u64),
    /// t -> u
    Arrow(Box<Ty>, Box<Ty>),
    /// t * u
    Tuple(Vec<Ty>),
    /// (t, u) c
    Con(Origin, Vec<Ty>),
}

/// A type over some variables of its own: those below `bound`.
#[derive(Drop)]
pub struct Scheme {
    pub bound: u64,
    pub body: Ty,
}

/// Types in place of constructors. In each, the variable i stands for the constructor's argument i, from 0.
/// Where an origin stands in several pairs, the first counts.
#[derive(Drop)]
pub struct OriginMap {
    pub pairs: Vec<(Origin, Ty)>,
}
