//! Demand 3 whole, and what is not kept: specs/ states it, proofs/ has the theorems.
#![tactic(auto)]
