// Step two lies less than one count from its exact sums, for all six phases and both Love models: proofs/Bound.antt. No code stands on it.

#![tactic(auto)]
