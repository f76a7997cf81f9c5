// Words of the half-edges that straight paths cross in a triangulation. No code: definitions and lemmas alone.
#![tactic(auto)]
