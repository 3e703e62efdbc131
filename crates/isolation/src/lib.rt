// Sessions of one list, at the calls: definitions in specs/ and laws in proofs/, no code. What one harvester gets does not depend on the others.
#![tactic(auto)]
