// No code: specs/ has the manual's invariants under its labels; proofs/ has the theorem that they hold in every reached state.
#![tactic(auto)]
