// The kinds of record: the byte that names each, and what stands behind it.
ghost use Rattle.std.specs.Prelude.{◌≡◌};
ghost use Rattle.journal.specs.Record.{byte_of, kind_of, form_of};
ghost use Rattle.records.specs.Kinds.{named_by, shape_by};

use journal::record::Kind;

// What stands behind a kind's byte: so many numbers; and, if a byte before them counts more, as many more.
#[derive(Clone, Copy)]
pub struct Shape {
    pub own: usize,
    pub counted: bool,
}

// The kind that a number names, if it names one.
pub fn kind_of(n: u32) -> Option<Kind>
    ensures { result ≡ named_by (kind_of n) }
{
    match n {
        1 => Some(Kind::Setup),
        2 => Some(Kind::Read),
        3 => Some(Kind::Write),
        4 => Some(Kind::Tick),
        5 => Some(Kind::Take),
        6 => Some(Kind::Refresh),
        7 => Some(Kind::Move),
        8 => Some(Kind::Page),
        _ => None,
    }
}

// The byte that names a kind.
#[tactic(auto, unfolding(journal::specs::Record::byte_of))]
pub fn byte_of(kind: Kind) -> u8
    ensures { result ≡ byte_of kind }
{
    match kind {
        Kind::Setup => 1,
        Kind::Read => 2,
        Kind::Write => 3,
        Kind::Tick => 4,
        Kind::Take => 5,
        Kind::Refresh => 6,
        Kind::Move => 7,
        Kind::Page => 8,
    }
}

fn of_shape(own: usize, counted: bool) -> Shape
    ensures { result ≡ record { own = own; counted = counted } }
{
    Shape { own, counted }
}

// What stands behind a kind's byte.
#[tactic(auto, unfolding(journal::specs::Record::form_of, crate::specs::Kinds::shape_by))]
pub fn shape_of(kind: Kind) -> Shape
    ensures { result ≡ shape_by (form_of kind) }
{
    match kind {
        Kind::Setup => of_shape(4, true),
        Kind::Read => of_shape(2, false),
        Kind::Write => of_shape(5, false),
        Kind::Tick => of_shape(2, false),
        Kind::Take => of_shape(3, false),
        Kind::Refresh => of_shape(2, false),
        Kind::Move => of_shape(2, false),
        Kind::Page => of_shape(1, true),
    }
}
