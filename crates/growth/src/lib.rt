// Captures that still grow, at the calls: definitions in specs/ and laws in proofs/, no code. What a page answers before n stays as it is.
#![tactic(auto)]
