// Nothing runs here: the three demands as statements about the calls, and their proofs. A reader of the proofs starts with its specs.
#![tactic(auto)]
