#![tactic(auto)]
// What is shown of a body broken over lines, with no code: proofs/ has the theorems about definition_cuts.
