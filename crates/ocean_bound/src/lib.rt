// How far the ocean tide's corrections are from the exact sums: definitions and laws, no code.

#![tactic(auto)]
