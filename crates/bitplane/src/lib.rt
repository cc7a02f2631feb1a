#![tactic(auto)]

// The body of a codestream as definitions, with their theorems: bit planes in passes, written and read.
