#![tactic(auto)]
// What a body broken over lines means, with no code: specs/ is the definition, and proofs/ its computed rows; definition_cuts_laws has what is shown of it.
