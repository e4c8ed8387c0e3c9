// No code: serving a list in another order, and the last of a list to write a thing, for any step.
#![tactic(auto)]
