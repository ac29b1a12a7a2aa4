// A call of any sort, and the refusals that it may have: no code of its own.
#![tactic(auto)]
