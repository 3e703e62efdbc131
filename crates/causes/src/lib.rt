// The cases of number 5, told from a record's bytes: definitions in specs/, laws in proofs/, no code.
#![tactic(auto)]
