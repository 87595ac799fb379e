// No code: specs/ says what it is for the two engines to agree; proofs/ has the theorem that they do.
#![tactic(auto)]
