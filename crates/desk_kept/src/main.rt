// The desk on a journal with ten records and a torn one behind them, those of the listing: what was read last is asked again.
#![tactic(auto)]

use keeper::keep;
use std::io;

fn main(rt: HostRuntime) -> io::Result<()> {
    keep(&rt, &rt.stderr())
}
