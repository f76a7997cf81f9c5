// Facts about lists of anything, without code: the definitions and lemmas that every other crate cites.
#![tactic(auto)]
