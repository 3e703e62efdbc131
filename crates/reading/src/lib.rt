// What a reading is, over any set of frames and contexts: definitions in specs/, laws in proofs/, no code.
#![tactic(auto)]
