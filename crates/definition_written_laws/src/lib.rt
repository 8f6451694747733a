#![tactic(auto)]
// What is shown of a body written back from records, with no code: proofs/ has the theorems about definition_written.
