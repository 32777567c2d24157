// A session in which the ring and an address wrap, computed. No code.
#![tactic(auto)]
