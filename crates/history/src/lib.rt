// Claims about whole lists of calls: statements in specs/, proofs in proofs/, and no code.
#![tactic(auto)]
