// The laws of convex polygons over an ordered ring: how often they turn, where their vertices are, and where a line leaves them.
// No code: definitions and lemmas alone.
#![tactic(auto)]
