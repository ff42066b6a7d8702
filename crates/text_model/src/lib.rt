//! What a text is: its lines, the places in it, and what an edit makes of it.
//! Definitions alone, over lists of bytes. They stand on nothing of the repository.
#![tactic(auto)]
