// Whole runs of steps: what calls reach, what overwriting bodies and annotations leaves as it was, and the machine's own answers.
// No function: theorems on those of `stepping` and `values`.
#![tactic(auto)]
