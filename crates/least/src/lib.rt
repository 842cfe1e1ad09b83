// The least time in which programs and sector erases turn a part's cells into an image: mathematics only, in specs/ and proofs/.
#![tactic(auto)]
