// Laws of a run with its log, and of the run call: what the engine and the theorems above cite in
// place of the definitions' text. No code.
#![tactic(auto)]
