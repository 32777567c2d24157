// The journal of steps: definitions in specs/ and their laws in proofs/; no code.
#![tactic(auto)]
