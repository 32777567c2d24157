// Theorems about the definitions of the assembler: specs/Theorems.antt.
#![tactic(auto)]
