// A crew changes depot, as C calls it.
ghost use Rattle.std.specs.Prelude.{◌≡◌};
ghost use Rattle.paper.specs.Calls.{move};
ghost use Rattle.upkeep.specs.Requests.{call, number_at, book_after};

use paper::number::number_in;
use rehome::move_crew;

#[unsafe(no_mangle)]
pub extern "C" fn depot_move(book: &mut [u32], crew: u32, depot: u32) -> u32
    ensures value { result ≡ number_at book.old (call (move crew depot)) }
    ensures book_after { book.new ≡ book_after book.old (call (move crew depot)) }
{
    number_in(move_crew(book, crew, depot))
}
