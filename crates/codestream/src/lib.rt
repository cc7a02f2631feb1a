#![tactic(auto)]

// Definitions and theorems on whole codestreams; no code.
