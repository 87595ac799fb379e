// No code: specs/ has the numbered checks that every refusal is a list of, proofs/ the laws on them.
#![tactic(auto)]
