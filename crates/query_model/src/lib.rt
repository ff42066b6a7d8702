//! What the queries tell of a text: its outline, over plain trees, and the page of its faults.
//! Definitions, and the proofs that the page is in order. They stand on the trees of `tree_model` and on the faults of
//! `grammar_model`'s recovery; `query_engine` meets them, and the replies of `service_model` cite them.
#![tactic(auto)]
