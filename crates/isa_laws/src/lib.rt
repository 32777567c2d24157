// Theorems about the definitions of isa and isa_number: specs/Theorems.antt.
#![tactic(auto)]
