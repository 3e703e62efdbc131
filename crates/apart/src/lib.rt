// Records tell items apart, and the bytes of a sound record its frame: the laws in proofs/, no code.
#![tactic(auto)]
