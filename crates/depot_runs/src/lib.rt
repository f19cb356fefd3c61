//! Runs of sessions over a depot: what they are answered, what files keep of a run, and replicas.
//!
//! The definitions stand in `specs/`; what each command does is `depot_model`'s.
#![tactic(auto)]
