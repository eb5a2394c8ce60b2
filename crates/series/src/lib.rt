// The exact counterpart of the sine and the cosine, and how near they are to it: definitions in specs/, laws in proofs/, and no code.

#![tactic(auto)]
