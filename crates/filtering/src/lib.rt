// Nothing runs here: derivations that FIRST and FOLLOW let pass, where they end, what is kept of these ends, and that no answer is lost by them. The crates
// above cite these laws: a reading that works out ends on demand holds what is kept here in its words.
#![tactic(auto)]
