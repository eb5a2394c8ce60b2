// Reversed amplitudes, coefficients and offsets, as statements about the calls' definitions: specs/Reversal.antt says them, proofs/Proved.antt proves them.

#![tactic(auto)]
