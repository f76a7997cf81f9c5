// Where lists of cuts carry the corners of glued polygons. No code: definitions and lemmas alone.
#![tactic(auto)]
