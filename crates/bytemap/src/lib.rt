// The byte map: a small engine for one command and a window of at most 4,096 bytes. What each of its calls answers and leaves, and what a
// list of them does: definitions in specs/, proofs of what is claimed of them in proofs/, and no code. That is in `mapcalls` (begin, end),
// in `mapfetch` and in `mapwrite`.
#![tactic(auto)]
