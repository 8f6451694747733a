#![tactic(auto)]
// What the literals and fields of a whole script are, with no code: specs/ is the definition, and proofs/ its computed rows; definition_scripts_laws has what is shown of it.
