// When a part of a book is fit: the counts, the homes, the crews, the shelves; the definitions of every part.
#![tactic(auto)]

pub mod counts;
pub mod crews;
pub mod range;
pub mod shelf;
