// Read: raise and show with the crew's vector at the home shelf; answer the stored value and its card, or that it is unwritten, with its vector; the crew's vector
// becomes the entrywise maximum with it.
#![tactic(auto)]

ghost use Rattle.std.specs.Prelude.{◌≡◌, true, ◌<◌, ◌≤◌, length, Ok};
ghost use Rattle.order.specs.Record.{most_depots, record_words, vector_of};
ghost use Rattle.paper.specs.Calls.{reads};
ghost use Rattle.book.specs.Layout.{counts_of};
ghost use Rattle.named.specs.Named.{base_fit};
ghost use Rattle.paper.specs.Answers.{paper_read};
ghost use Rattle.register.specs.Answers.{cut, told};
ghost use Rattle.register.specs.Promises.{Read};

use book::layout::{crew_at, stored_at};
use book::numbers::{Bearing, Crew};
use book::parts::counts_of;
use named_call::read_parts_fit;
use order::record::{DIAMETER, RECORD_WORDS, VALUE, VECTOR, WIDTH};
use order::vector::{is_zero, merge};
use paper::answer::{Payload, Reading, Refusal};
use register::check::check_asked;
use register::home::{cut_vector, home_depot, settle_home, shelf_for};

// What a read tells of a stored record.
fn tell(version: &[u32], n: usize) -> Reading
    requires { (length version.now ≡ record_words) × (n ≤ most_depots) }
    ensures result_value { paper_read (Ok result) ≡ reads (told n version.now) }
    ensures vector_value { (result.vector ≡ cut n (vector_of version.now)) × (result.depots ≡ n) }
{
    let vector = cut_vector(&version[VECTOR..RECORD_WORDS], n);
    if is_zero(&version[VECTOR..RECORD_WORDS], n) {
        return Reading {
            payload: None,
            vector,
            depots: n,
        };
    }
    Reading {
        payload: Some(Payload {
            value: version[VALUE],
            diameter: version[DIAMETER],
            width: version[WIDTH],
        }),
        vector,
        depots: n,
    }
}

fn read_at(book: &mut [u32], c: Crew, k: Bearing) -> Result<Reading, Refusal>
    requires { (base_fit book.old ≡ true) × (c.0 < (counts_of book.old).crews) × (k.0 < (counts_of book.old).bearings) }
    ensures { Read book.old c.0 k.0 result book.new }
{
    let n = counts_of(book);
    let depots = n.depots;
    let d = home_depot(book, n, c);
    let s = shelf_for(k, n);
    if !read_parts_fit(book, n, c, k, d, s) {
        return Err(Refusal::BadBook);
    }
    settle_home(book, depots, c, d, s);
    let at = stored_at(d, k);
    let end = at + RECORD_WORDS;
    let reading = tell(&book[at..end], depots);
    merge(book, crew_at(c), &reading.vector, depots, depots);
    Ok(reading)
}

// Refuses, in this order: BAD BOOK, BAD CREW, BAD KEY.
pub fn read(book: &mut [u32], crew: u32, bearing: u32) -> Result<Reading, Refusal>
    ensures { Read book.old crew bearing result book.new }
{
    let (c, k) = check_asked(book, crew, bearing)?;
    read_at(book, c, k)
}
