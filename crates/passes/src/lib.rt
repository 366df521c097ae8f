// What a register has done passes the auditor: statements and proofs alone.

#![tactic(auto)]
