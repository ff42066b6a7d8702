//! What the code prints of a type, by its own names in scope and its own nodes, is what the definitions print of the node's own type.
//! It stands on `type_print`, on what the code's names and nodes are against those of the definitions (`typing_conditions`), and on the laws of renamed types (`typing_laws`). No program calls it.
//! `Naming`: an origin has the same names in both. `Shown`: a node is printed as its own type. `Printing`: so it prints as in the definitions, `Ascii`: where the types and modules in scope have names of one byte a character; `Declared`: by the names that nodes have for origins.
//! `Over`, `Values`: values in scope don't matter. `Messages`: the message of two types prints them, and those of one demand have one text each. `One`: an origin has one name, and a type one text; `Texts`: so has it over any values, and in each of two most general choices.
#![tactic(auto)]
