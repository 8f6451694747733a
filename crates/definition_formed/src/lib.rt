#![tactic(auto)]
// What a well-formed answer is that a caller lends, with no code: specs/ is the definition, and proofs/ what is shown of it.
