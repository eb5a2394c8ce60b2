// The words of a gravity field file.

#![tactic(auto)]
