// What overwriting many bodies leaves of the texts of symbols. No function: a theorem on those of `symbols` and `runs`.
#![tactic(auto)]
