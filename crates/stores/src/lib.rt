// Laws of runs of stores into a buffer, `sets` of the kit: one after the other, buffers joined.
// No code.
#![tactic(auto)]
