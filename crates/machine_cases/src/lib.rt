// The starred cases as one list of rows: definitions and proofs, and no code.
#![tactic(auto)]
