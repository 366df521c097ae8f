// What a recovered book stands for: the history since the last setup among its records, and what is promised of it. Specs and proofs only.

#![tactic(auto)]
