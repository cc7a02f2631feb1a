#![tactic(auto)]

// Demands 2 and 3, each in one piece, as definitions and theorems; no code.
