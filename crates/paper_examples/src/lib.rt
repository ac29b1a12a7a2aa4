// No code: the crate computes tables of examples from the definitions.
#![tactic(auto)]
