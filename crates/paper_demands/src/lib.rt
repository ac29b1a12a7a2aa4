// What the board promises: no code of its own.
#![tactic(auto)]
