//! What the versions of candidates hold: the updates of a run and their candidates, the version of a candidate, the
//! values along the steps that decide, and the requests of correct clients that were handled. The crate has no code.
#![tactic(auto)]
