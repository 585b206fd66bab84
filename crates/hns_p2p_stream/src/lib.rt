//! Theorems on streams: demand 3 on lists of pushes, the table's conditions for pushes, the reviewer's trials, and lists of pushes of any kind.
#![tactic(auto)]
