// A field written as text and read back, as statements about the definitions: specs/Return.antt says them, proofs/Return.antt proves them.

#![tactic(auto)]
