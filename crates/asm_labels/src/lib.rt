// Theorem about the names of the assembler: specs/Labels.antt.
#![tactic(auto)]
