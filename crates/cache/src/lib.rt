// What each call of the fetch cache answers and leaves, and what a list of calls does: definitions in specs/, proofs of what is claimed of
// them in proofs/, and no code. That is in `calls` (begin, end), `hostwrite`, `show`, `fetch` and `ownwrite`; the last two share
// `admission`, which judges, and `holding`, which holds a span.
#![tactic(auto)]
