#![tactic(auto)]

// Planes and masks of pictures as definitions, with the theorems of demands 2 and 3; `wavelet` and `picture_mask` have the code.
