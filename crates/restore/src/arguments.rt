// The program's arguments.
ghost use Rattle.std.specs.Prelude.{◌≤◌};

use std::env::{Env, FillError};

// How many arguments there are, the program's own name among them, counted no further than `most`.
pub fn arg_count(rt: &impl Env, most: usize) -> usize
    ensures { result ≤ most }
{
    for i in 0..most {
        if let Err(FillError::NotPresent) = rt.arg(i, &mut []) {
            return i;
        }
    }
    most
}
