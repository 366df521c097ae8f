// The promises over time: fitness is kept, no call of a history answers BAD BOOK, each promise leaves one outcome. Proofs only.

#![tactic(auto)]
