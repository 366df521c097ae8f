// The places of the book's parts, as docs/LAYOUT.md has them.
ghost use Rattle.std.specs.Prelude.{◌≡◌, ◌≤◌, ◌<◌};
ghost use Rattle.order.specs.Record.{most_depots};
ghost use Rattle.book.specs.Layout.{most_shelves, most_crews, bearing_room, link_room, links};
ghost use Rattle.book.specs.Layout.{home_at, crew_at, clock_at, stable_at, seen_at, link_of, held_at, taken_at, slot_at, stored_at};

use crate::numbers::{Bearing, Crew, Depot, Numbered, Shelf};
use order::record::RECORD_WORDS;

pub const BOOK_WORDS: usize = 16384;

// The end of every clock, stamp and vector entry.
pub const END: u32 = 2147483647;

// The places of the four counts.
pub const DEPOTS: usize = 0;

pub const SHELVES: usize = 1;

pub const BEARINGS: usize = 2;

pub const CREWS: usize = 3;

// Where the homes start.
pub const HOMES: usize = 4;

// How many bearings the layout has room for.
pub const BEARING_ROOM: usize = 160;

// How many messages a link has room for, and the words of a slot.
pub const LINK_ROOM: usize = 16;

pub const SLOT_WORDS: usize = 10;

// The words of a link's slots, and of a depot's stored versions.
const LINK_WORDS: usize = 160;

const STORE_WORDS: usize = 1440;

// Behind the kind of a message stand a copy's record, and in it the vector, or a heartbeat's stamp.
pub const SLOT_RECORD: usize = 1;

pub const SLOT_VECTOR: usize = 6;

pub const SLOT_STAMP: usize = 1;

// The kinds of message.
pub const COPY: u32 = 1;

pub const BEAT: u32 = 2;

// A link of a register: from one depot's shelf to the same shelf of another.
#[derive(Clone, Copy)]
pub struct Link(usize);

impl Link {
    // The link that carries what shelf s of depot `from` sends to depot `to`.
    pub fn between(s: Shelf, from: Depot, to: Depot) -> Link
        requires { (s.0 < most_shelves) × (from.0 < most_depots) × (to.0 < most_depots) }
        ensures { result.0 ≡ link_of s.0 from.0 to.0 }
    {
        Link(16 * s.index() + 4 * from.index() + to.index())
    }

    // Where the number of messages held stands.
    pub fn held_at(self) -> usize
        requires { self.0 < links }
        ensures { result ≡ held_at self.0 }
    {
        228 + 2 * self.0
    }

    // Where the number of messages taken stands.
    pub fn taken_at(self) -> usize
        requires { self.0 < links }
        ensures { result ≡ taken_at self.0 }
    {
        229 + 2 * self.0
    }

    // Where slot i stands.
    pub fn slot_at(self, i: usize) -> usize
        requires { (self.0 < links) × (i ≤ link_room) }
        ensures { result ≡ slot_at self.0 i }
    {
        356 + LINK_WORDS * self.0 + SLOT_WORDS * i
    }
}

// Where the home of a crew stands.
pub fn home_at(c: Crew) -> usize
    requires { c.0 < most_crews }
    ensures { result ≡ home_at c.0 }
{
    HOMES + c.index()
}

// Where a crew's vector starts.
pub fn crew_at(c: Crew) -> usize
    requires { c.0 < most_crews }
    ensures { result ≡ crew_at c.0 }
{
    20 + 4 * c.index()
}

// Where the clock of a shelf stands.
pub fn clock_at(d: Depot, s: Shelf) -> usize
    requires { (d.0 < most_depots) × (s.0 < most_shelves) }
    ensures { result ≡ clock_at d.0 s.0 }
{
    84 + 4 * d.index() + s.index()
}

// Where the stable vector of a shelf starts.
pub fn stable_at(d: Depot, s: Shelf) -> usize
    requires { (d.0 < most_depots) × (s.0 < most_shelves) }
    ensures { result ≡ stable_at d.0 s.0 }
{
    100 + 16 * d.index() + 4 * s.index()
}

// Where the stamps that a shelf has seen start, one for each depot.
pub fn seen_at(d: Depot, s: Shelf) -> usize
    requires { (d.0 < most_depots) × (s.0 < most_shelves) }
    ensures { result ≡ seen_at d.0 s.0 }
{
    164 + 16 * d.index() + 4 * s.index()
}

// Where the stored version of a bearing stands.
pub fn stored_at(d: Depot, k: Bearing) -> usize
    requires { (d.0 < most_depots) × (k.0 < bearing_room) }
    ensures { result ≡ stored_at d.0 k.0 }
{
    10596 + STORE_WORDS * d.index() + RECORD_WORDS * k.index()
}
