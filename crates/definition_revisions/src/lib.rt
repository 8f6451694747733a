#![tactic(auto)]
// What two revisions of a script line compared mean, with no code: specs/ is the definition, and proofs/ what is shown of it.
