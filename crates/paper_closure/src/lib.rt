// The closure as mathematics: definitions and theorems, no code.
#![tactic(auto)]
