// Glued polygons that are cut along a diagonal, and what becomes of straight paths. No code: definitions and lemmas alone.
#![tactic(auto)]
