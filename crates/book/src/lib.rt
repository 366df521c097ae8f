// The book: the four kinds of number, the layout, and the words of its parts.
#![tactic(auto)]

pub mod layout;
pub mod numbers;
pub mod parts;
pub mod words;
