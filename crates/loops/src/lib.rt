// The two loops that everything is written with, the choice between two things, and their laws. Specs and proofs only.

#![tactic(auto)]
