//! Which types the nodes of a text show: those of a principal typing with the kept demands, printed among the names in scope.
//! It stands on the typings of `typing_model`, on the typed nodes of `query_model` and on how types are printed (`type_print_model`). Definitions alone.
//! `service_model` cites it for what `type-enclosing` says, and `analysis_api` for what an analysis finds.
#![tactic(auto)]
