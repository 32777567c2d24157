// One run whose stacks reach exactly the bytes that the figure gives, step by step. No code.
#![tactic(auto)]
