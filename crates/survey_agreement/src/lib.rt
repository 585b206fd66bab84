//! Theorems on the exported survey: log and export agree, the text determines the survey, and the program's steps write that text.
#![tactic(auto)]
