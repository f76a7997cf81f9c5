// The laws of rings and of the plane over an ordered ring. No code: definitions and lemmas alone.
#![tactic(auto)]
