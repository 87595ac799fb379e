// No code: specs/ has the rules a second time in the document's own words, and the kinds of shifts; proofs/ has the customer's demands
// as theorems.
#![tactic(auto)]
