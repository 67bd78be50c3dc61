// Nothing runs here: the reading that adapts to what it has seen, as a definition, and that it answers as the plain one does.
#![tactic(auto)]
