//! Theorems of packets: what stands at the places that a packet answers, which refusals reading gives, wrong readers refuted, document 01's worked bytes.
#![tactic(auto)]
