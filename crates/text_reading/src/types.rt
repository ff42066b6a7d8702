//! What is found of the types and names of a text, kept from one query to the next.
ghost use Rattle.text_reading.specs.Settled.{HoldsIf};

mod finding;

use analysis_api::Analyser;
pub use finding::{analysed, find_types};

/// A typer that has found the types and names of a text: one that is kept, or one that is new.
#[derive(Drop)]
pub enum Found<'a, A: Analyser> {
    Kept(&'a A),
    New(A),
}

/// The typer of a text that is edited, and whether what it found is that of the present text.
#[derive(Drop)]
pub struct KeptTypes<A: Analyser> {
    typer: Option<A>,
    is_current: bool,
    // how many of the typer's first items are known to be those of the present tree
    front: usize,
    ghost settled: { ∥ HoldsIf A.is_settled is_current typer ∥₁ },
}
