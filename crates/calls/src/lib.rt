// One dispatcher: from a request with its numbers to the reply and the book.
#![tactic(auto)]

pub mod perform;
