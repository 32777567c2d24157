// Laws of the machine's definitions, which other crates cite in place of the definitions' text. No
// code.
#![tactic(auto)]
