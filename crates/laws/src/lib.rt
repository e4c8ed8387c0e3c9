// No code: specs/ has the vocabulary that every layer's definitions share, proofs/ its laws.
#![tactic(auto)]
