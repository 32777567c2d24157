// What the journal of steps is good for: going back gives what was there, and running on gives what
// came of it, over whole sessions. Definitions in specs/, theorems in proofs/; no code.
#![tactic(auto)]
