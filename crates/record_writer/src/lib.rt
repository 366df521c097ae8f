// The record of a request: how many bytes it has, and how it is written. docs/JOURNAL.md tells them.
#![tactic(auto)]

ghost use Rattle.std.specs.Prelude.{◌≡◌, ◌∷◌, ◌++◌, ◌+◌, ◌*◌, ◌≤◌, ◌<◌, length};
ghost use Rattle.book.specs.Words.{put};
ghost use Rattle.wire.specs.Wire.{byte_limit, Below};
ghost use Rattle.numbers.specs.Numbers.{bytes_of};
ghost use Rattle.calls.specs.Performed.{asked};
ghost use Rattle.journal.specs.Record.{byte_of, record_bytes};

use journal::record::Kind;
use numbers::put_words;
use records::kinds::byte_of;
use request::ask::Request;

// How many bytes the record of a request has, with the numbers beside it.
pub fn size_of(request: Request, beside: &[u32]) -> usize
    ensures { result ≡ length (record_bytes (asked request beside.now)) }
{
    match request {
        Request::Setup {
            depots: _,
            shelves: _,
            bearings: _,
            crews: _,
        } => 18 + 4 * beside.len(),
        Request::Read {
            crew: _,
            bearing: _,
        } => 9,
        Request::Write {
            crew: _,
            bearing: _,
            payload: _,
        } => 21,
        Request::Tick { depot: _, shelf: _ } => 9,
        Request::Take {
            depot: _,
            shelf: _,
            from: _,
        } => 13,
        Request::Refresh { depot: _, shelf: _ } => 9,
        Request::Move { crew: _, depot: _ } => 9,
        Request::List { crew: _ } => 6 + 4 * beside.len(),
    }
}

// A record in which no byte counts stands from `at` on.
fn put_plain(out: &mut [u8], at: usize, kind: Kind, numbers: &[u32])
    requires { at + 1 + 4 * length numbers.now ≤ length out.old }
    ensures { out.new ≡ put out.old at (byte_of kind ∷ bytes_of numbers.now) }
{
    out[at] = byte_of(kind);
    put_words(out, at + 1, numbers);
}

// A record in which a byte counts the numbers beside the request's own stands from `at` on.
fn put_counted(out: &mut [u8], at: usize, kind: Kind, own: &[u32], beside: &[u32])
    requires { (at + 2 + 4 * length own.now + 4 * length beside.now ≤ length out.old) × (length beside.now < byte_limit) }
    ensures { out.new
        ≡ put out.old at (byte_of kind ∷ length beside.now ∷ bytes_of (own.now ++ beside.now)) }
{
    out[at] = byte_of(kind);
    out[at + 1] = beside.len() as u8;
    let next = at + 2;
    put_words(out, next, own);
    put_words(out, next + 4 * own.len(), beside);
}

// The record of a request stands from `at` on.
pub fn write_record(request: Request, beside: &[u32], out: &mut [u8], at: usize)
    requires { (at + length (record_bytes (asked request beside.now)) ≤ length out.old) × Below byte_limit (record_bytes (asked request beside.now)) }
    ensures { out.new ≡ put out.old at (record_bytes (asked request beside.now)) }
{
    match request {
        Request::Setup {
            depots,
            shelves,
            bearings,
            crews,
        } => put_counted(
            out,
            at,
            Kind::Setup,
            &[depots, shelves, bearings, crews],
            beside,
        ),
        Request::Read { crew, bearing } => put_plain(out, at, Kind::Read, &[crew, bearing]),
        Request::Write {
            crew,
            bearing,
            payload,
        } => put_plain(
            out,
            at,
            Kind::Write,
            &[
                crew,
                bearing,
                payload.value,
                payload.diameter,
                payload.width,
            ],
        ),
        Request::Tick { depot, shelf } => put_plain(out, at, Kind::Tick, &[depot, shelf]),
        Request::Take { depot, shelf, from } => {
            put_plain(out, at, Kind::Take, &[depot, shelf, from])
        }
        Request::Refresh { depot, shelf } => put_plain(out, at, Kind::Refresh, &[depot, shelf]),
        Request::Move { crew, depot } => put_plain(out, at, Kind::Move, &[crew, depot]),
        Request::List { crew } => put_counted(out, at, Kind::Page, &[crew], beside),
    }
}
