//! What is known of depots and their rows, for the crates that prove something of them.
#![tactic(auto)]
