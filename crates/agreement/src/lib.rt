// The byte map and the record engine agree: the statement in specs/, its proof in proofs/, and no code.
#![tactic(auto)]
