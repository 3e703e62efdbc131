// What joins paging and writing: no code, only the laws in proofs/ that records written read back, and that a stretch read and written gives its own bits.
#![tactic(auto)]
