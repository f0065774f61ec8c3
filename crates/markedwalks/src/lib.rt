// Marked page walks (request F-5 of 02, the agreed changes; docs/RULES.md has its rules), run on the definitions. There is no code.
#![tactic(auto)]
