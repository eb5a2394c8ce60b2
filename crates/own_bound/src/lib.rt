// The exact sums of own lines, and how near the corrections are to them: definitions in specs/, laws in proofs/, and no code.

#![tactic(auto)]
