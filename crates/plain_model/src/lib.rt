//! What a plain text is: items that bind a name to a literal or to an earlier name, their trees and their types.
//! Definitions alone, over tokens and plain trees.
#![tactic(auto)]
