#![tactic(auto)]
// What a trace replayed through a template means, with no code: specs/ is the definition, and proofs/ its computed rows; definition_replay_laws has what is shown of it.
