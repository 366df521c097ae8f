// The desk: lines from standard input, one answer line for each to standard output. With a file it keeps its register there, with a second the register goes on from an image. It is run on the
// listing.
#![tactic(auto)]

use keeper::{keep, keep_from_image};
use restore::arguments::arg_count;
use restore::tell::tell;
use serve::serve;
use std::io;

// As many arguments, the program's own name among them, as a desk without a journal has, one with a journal, and one with an image too.
const PLAIN: usize = 1;

const KEPT: usize = 2;

const FROM_IMAGE: usize = 3;

fn main(rt: HostRuntime) -> io::Result<()> {
    let notes = rt.stderr();
    let words = arg_count(&rt, FROM_IMAGE + 1);
    if words <= PLAIN {
        return serve(&rt, &notes);
    }
    if words == KEPT {
        return keep(&rt, &notes);
    }
    if words == FROM_IMAGE {
        return keep_from_image(&rt, &notes);
    }
    tell(&notes, b"usage: desk [JOURNAL [IMAGE]]\n");
    Ok(())
}
