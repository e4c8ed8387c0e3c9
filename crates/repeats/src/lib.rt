// No code: what a list of frames leaves in each cell, and a list with repeats in two orders.
#![tactic(auto)]
