// Polygons glued along sides, by names of sides, and straight paths across them. No code: definitions and lemmas alone.
#![tactic(auto)]
