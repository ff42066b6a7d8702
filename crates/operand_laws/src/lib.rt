//! The operands of a row, as `row_parts` gives them, are the parts that the definitions of typings take: by number, place and meaning.
//! It stands on plain trees, on `row_parts`, on the grammar and on the definitions of typings, and knows nothing of the typer.
//! No program calls it. The layer above may cite `expression_of`, `pattern_of` and `type_of` for what an operand means, and `IsFormed`
//! for a tree as the parser gives it. In `proofs/`, `Sorts` and `SlotBySlot` say that the parts in a slot are the operands in it, `Tokens`
//! the same of tokens and paths, `Standing` which number and place they have, `Going` that operands of well formed trees are well formed,
//! `Parsed` that the parser's items are, and `Applied` reads one row by these lemmas, as an example.
#![tactic(auto)]
