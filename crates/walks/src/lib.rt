// Claims about whole lists of calls and page walks: statements in specs/, proofs in proofs/, and no code.
#![tactic(auto)]
