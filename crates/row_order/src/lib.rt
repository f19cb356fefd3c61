//! Facts on lists of rows in the order of their keys: what stands below, at and above a key, and what a change leaves.
#![tactic(auto)]
