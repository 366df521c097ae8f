// What happens at one shelf: raise and show, send, take, and the lowest stamp seen. Each routine asks only for the fitness of the parts it touches.
#![tactic(auto)]

pub mod link;
pub mod show;
