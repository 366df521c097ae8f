// What goes on a link and leaves it: the definitions of sending, taking and the lowest stamp seen, with their laws; and sending itself.
#![tactic(auto)]

pub mod send;
