// The rules, closed boards and schedules: no code of its own.
#![tactic(auto)]
