// No code: events of steps before the start do nothing, and a host may leave them out (specs,
// proofs).
#![tactic(auto)]
