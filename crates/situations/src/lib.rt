// The marked situations of document 01 (the agreed scope, with the changes of 02; docs/RULES.md has their rules), run on the definitions. There is
// no code.
#![tactic(auto)]
