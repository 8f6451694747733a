#![tactic(auto)]
// What a body written back from records means, with no code: specs/ is the definition, and proofs/ its computed rows; definition_written_laws has what is shown of it.
