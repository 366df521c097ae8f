// The checks that calls share, in the order of the paper's table: the book's length, its counts and homes, then the numbers. A number that passed has its own type from here on.
ghost use Rattle.register.specs.Checks.{place_number, PlaceChecked, asked_number, AskChecked, link_number, LinkChecked};

use book::numbers::{Bearing, Crew, Depot, Numbered, Shelf};
use book::parts::counts_of;
use named_call::base_fits;
use paper::answer::Refusal;

// A depot and a shelf that a call names; or BAD BOOK, BAD DEPOT, BAD SHELF.
pub fn check_place(book: &[u32], depot: u32, shelf: u32) -> Result<(Depot, Shelf), Refusal>
    ensures { PlaceChecked (place_number book.now depot shelf) depot shelf result }
{
    if !base_fits(book) {
        return Err(Refusal::BadBook);
    }
    let n = counts_of(book);
    let d = Depot::checked(depot, n.depots).ok_or(Refusal::BadDepot)?;
    let s = Shelf::checked(shelf, n.shelves).ok_or(Refusal::BadShelf)?;
    Ok((d, s))
}

// A crew and a bearing that a call names; or BAD BOOK, BAD CREW, BAD KEY.
pub fn check_asked(book: &[u32], crew: u32, bearing: u32) -> Result<(Crew, Bearing), Refusal>
    ensures { AskChecked (asked_number book.now crew bearing) crew bearing result }
{
    if !base_fits(book) {
        return Err(Refusal::BadBook);
    }
    let n = counts_of(book);
    let c = Crew::checked(crew, n.crews).ok_or(Refusal::BadCrew)?;
    let k = Bearing::checked(bearing, n.bearings).ok_or(Refusal::BadKey)?;
    Ok((c, k))
}

// A depot, a shelf and the depot that a message comes from; or BAD BOOK, BAD DEPOT (either), BAD SHELF.
pub fn check_link(
    book: &[u32],
    depot: u32,
    shelf: u32,
    from: u32,
) -> Result<(Depot, Shelf, Depot), Refusal>
    ensures { LinkChecked (link_number book.now depot shelf from) depot shelf from result }
{
    if !base_fits(book) {
        return Err(Refusal::BadBook);
    }
    let n = counts_of(book);
    let d = Depot::checked(depot, n.depots).ok_or(Refusal::BadDepot)?;
    let o = Depot::checked(from, n.depots).ok_or(Refusal::BadDepot)?;
    let s = Shelf::checked(shelf, n.shelves).ok_or(Refusal::BadShelf)?;
    Ok((d, s, o))
}
