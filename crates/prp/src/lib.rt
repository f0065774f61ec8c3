// The page walk: what it answers and leaves, by definitions in specs/, proofs of what is claimed of them in proofs/, and no code. That is in
// `pages` (entries judged, spans put into lists) and in `walk` (the call).
#![tactic(auto)]
