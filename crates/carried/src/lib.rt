// Nothing lost on a link, at work: statements and proofs alone.

#![tactic(auto)]
