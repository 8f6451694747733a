#![tactic(auto)]
// What a lent file of names means for a reading, with no code: specs/ is the definition, and proofs/ what is shown of it.
