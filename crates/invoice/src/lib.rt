// What the customer pays for, of every accepted job: mathematics only, in proofs/.
#![tactic(auto)]
