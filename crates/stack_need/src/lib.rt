// Stack bytes that a paper will need: definitions in specs/, laws and theorem in proofs/. No code.
#![tactic(auto)]
