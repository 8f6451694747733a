#![tactic(auto)]
// What the lines of the programs are, with no code: specs/ is the definition, and proofs/ what is shown of it.
