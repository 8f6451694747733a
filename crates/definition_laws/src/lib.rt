#![tactic(auto)]
// What is shown of reading a list of literals, with no code: proofs/ has the theorems about definition.
