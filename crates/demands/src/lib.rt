// The three demands, as statements about the calls' definitions: specs/Demands.antt says them, proofs/Proved.antt proves them.

#![tactic(auto)]
