#![tactic(auto)]

// Pictures, passes and levels as definitions, with their laws; `passes`, `wavelet` and `picture_mask` have the code.
