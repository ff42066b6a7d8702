//! What is found among the names that are recorded for a node is defined where the definitions find it.
//! It stands on how names of the code stand for those of the definitions (`typing_conditions`). No program calls it.
#![tactic(auto)]
