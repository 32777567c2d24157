// A session with two event lists, going back and running on by other runs, computed. No code.
#![tactic(auto)]
