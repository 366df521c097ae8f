// The desk on an input whose last line has no line feed.
#![tactic(auto)]

use serve::serve;
use std::io;

fn main(rt: HostRuntime) -> io::Result<()> {
    serve(&rt, &rt.stderr())
}
