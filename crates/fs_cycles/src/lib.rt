// Permutations of a finite list and the number of their cycles. No code: definitions and lemmas alone.
#![tactic(auto)]
