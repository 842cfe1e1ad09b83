// The order itself, as theorems on the promises of the exported functions: nothing but specs/ and proofs/.
#![tactic(auto)]
