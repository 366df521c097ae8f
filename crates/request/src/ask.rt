// What is asked: a setup or a call, with its numbers.
ghost use Rattle.std.specs.Prelude.{◌≡◌, get_or};
ghost use Rattle.request.specs.Requests.{request_in, own_numbers, beside_in};

use paper::answer::Payload;

// The kinds of request that a line can make, as its letter names them. A move is none: the lines are closed.
#[derive(Clone, Copy)]
pub enum Event {
    Setup,
    Read,
    Write,
    Tick,
    Take,
    Refresh,
    List,
}

// A request with its numbers. The homes of a setup and the bearings of a list stand beside it.
#[derive(Clone, Copy)]
pub enum Request {
    Setup {
        depots: u32,
        shelves: u32,
        bearings: u32,
        crews: u32,
    },
    Read {
        crew: u32,
        bearing: u32,
    },
    Write {
        crew: u32,
        bearing: u32,
        payload: Payload,
    },
    Tick {
        depot: u32,
        shelf: u32,
    },
    Take {
        depot: u32,
        shelf: u32,
        from: u32,
    },
    Refresh {
        depot: u32,
        shelf: u32,
    },
    Move {
        crew: u32,
        depot: u32,
    },
    List {
        crew: u32,
    },
}

// The number at a place, 0 where there is none.
fn number_at(numbers: &[u32], i: usize) -> u32
    ensures { result ≡ get_or numbers.now i 0 }
{
    if i < numbers.len() {
        return numbers[i];
    }
    0
}

// What an event with its numbers asks.
pub fn request_of(event: Event, numbers: &[u32]) -> Request
    ensures { result ≡ request_in event numbers.now }
{
    let first = number_at(numbers, 0);
    let second = number_at(numbers, 1);
    let third = number_at(numbers, 2);
    let fourth = number_at(numbers, 3);
    let fifth = number_at(numbers, 4);
    match event {
        Event::Setup => Request::Setup {
            depots: first,
            shelves: second,
            bearings: third,
            crews: fourth,
        },
        Event::Read => Request::Read {
            crew: first,
            bearing: second,
        },
        Event::Write => Request::Write {
            crew: first,
            bearing: second,
            payload: Payload {
                value: third,
                diameter: fourth,
                width: fifth,
            },
        },
        Event::Tick => Request::Tick {
            depot: first,
            shelf: second,
        },
        Event::Take => Request::Take {
            depot: first,
            shelf: second,
            from: third,
        },
        Event::Refresh => Request::Refresh {
            depot: first,
            shelf: second,
        },
        Event::List => Request::List { crew: first },
    }
}

// How many numbers a request of this kind has of its own.
#[tactic(auto, unfolding(crate::specs::Requests::own_numbers))]
fn own_numbers(event: Event) -> usize
    ensures { result ≡ own_numbers event }
{
    match event {
        Event::Setup => 4,
        Event::Read => 2,
        Event::Write => 5,
        Event::Tick => 2,
        Event::Take => 3,
        Event::Refresh => 2,
        Event::List => 1,
    }
}

// The numbers that stand beside the request: those after its own, the homes of a setup and the bearings of a list.
pub fn beside_in(event: Event, numbers: &[u32]) -> &[u32]
    ensures { result.now ≡ beside_in event numbers.now }
{
    let own = own_numbers(event);
    let end = numbers.len();
    if end < own {
        return &numbers[end..];
    }
    &numbers[own..]
}
