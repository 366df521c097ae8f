// The parts that each call names: what it reads or writes, and nothing else. The definitions and their laws; the functions that judge the parts are in crates of their own.

#![tactic(auto)]
