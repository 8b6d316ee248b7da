//! What the walk through a configuration gives is a sound plan: it keeps every form, limit and reference. It has lemmas
//! alone, and no code.
#![tactic(auto)]
