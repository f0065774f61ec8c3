// The claims of `history`, `journal` and `walks` and the definitions behind them at work on small cases: proofs, and no code.
#![tactic(auto)]
