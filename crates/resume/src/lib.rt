// The bound on depth and the resumption of the application, stated and proved of the machine's
// definitions. No code.
#![tactic(auto)]
