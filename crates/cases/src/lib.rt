// The cases that document 01 marks P, as one statement about the definitions: specs/Cases.antt says it, proofs/Proved.antt proves it.

#![tactic(auto)]
