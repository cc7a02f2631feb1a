#![tactic(auto)]

// The worked examples of docs/FORMAT.md that are proved: a table, and one theorem.
