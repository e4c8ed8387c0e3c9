// No code: in which orders frames may be served, proved over the definition of serving.
#![tactic(auto)]
