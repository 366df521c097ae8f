// A register given back from files: the book of an image, and that of a journal which goes on from it. What is wrong with a file is told on standard error.
//
// No contract can say which bytes a file holds. That the bytes recovered are the journal's, all of them and in order, stands outside the promise: `recover_more` and `is_sound` are to be
// read. What is promised of each function that is lent the book is that it leaves a book that a desk may begin with.
#![tactic(auto)]

pub mod arguments;
pub mod files;
pub mod image_file;
pub mod journal_file;
pub mod tell;
