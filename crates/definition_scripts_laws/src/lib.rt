#![tactic(auto)]
// What is shown of the literals and fields of a whole script, with no code: proofs/ has the theorems about definition_scripts.
