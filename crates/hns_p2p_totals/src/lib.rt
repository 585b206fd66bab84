//! Theorems on tallies: what lists of tallying pushes keep, and when a push is turned away by 20.
#![tactic(auto)]
