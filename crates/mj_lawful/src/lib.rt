//! Lists of entries: which are lawful, and that each lawful list is cut out of the meaning of what was accepted. It has
//! definitions and lemmas alone, and no code.
#![tactic(auto)]
