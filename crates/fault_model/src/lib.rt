//! Which faults a text has by its demands: where each that isn't kept stands, of which kind it is, and its message.
//! It stands on the demands and typings of `typing_model` and on the kinds of faults of `query_model`. Definitions alone.
//! `service_model` cites them for what `errors` says, and `analysis_api` for what an analysis finds.
#![tactic(auto)]
