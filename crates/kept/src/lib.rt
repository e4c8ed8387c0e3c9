// No code: the signatures that an image keeps, proved over the definition of serving.
#![tactic(auto)]
