#![tactic(auto)]
// What is shown of a trace replayed through a template, with no code: proofs/ has the theorems about definition_replay.
