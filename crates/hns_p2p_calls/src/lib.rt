//! Theorems on all calls that read a payload as a packet: `specs/Calls.antt`, and wrong calls, `specs/Trials.antt`.
#![tactic(auto)]
