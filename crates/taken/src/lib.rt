// Records taken one by one, and what decides behind them: definitions in specs/ and laws in proofs/, no code.
#![tactic(auto)]
