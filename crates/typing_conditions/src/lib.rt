//! What typing a part carries from one state of the typer to the next: that its conditions hold at each reading of the store, that every choice that meets them goes on, and which
//! demands are kept; with the environments and declarations of the store against those of the definitions, generalisation by levels, and the use of constructors and labels.
//! It stands on the definitions of typings, on the store of types with its unification, and on the names of `env_table`. No program calls it.
//! The contract of a typing function is `Carried` for its conditions, and `Means` for the node that it answers; its proof is one step of `proofs/` for each call in its body.
//! Steps on the store alone: `Steps`, `Instances`, `Closing`, `Standing`, `Bindings`, `Groups`; on declarations: `DeclaredLater`, `Finding`, `Taking`.
#![tactic(auto)]
