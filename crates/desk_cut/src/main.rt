// The desk on an input of ten pieces: its lines of nine bytes are cut by a read at every place.
#![tactic(auto)]

use serve::serve;
use std::io;

fn main(rt: HostRuntime) -> io::Result<()> {
    serve(&rt, &rt.stderr())
}
