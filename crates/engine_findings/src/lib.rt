// What a search finds: a fact that the rules infer and that the board doesn't show yet, or nothing. Only definitions: no code.
#![tactic(auto)]
