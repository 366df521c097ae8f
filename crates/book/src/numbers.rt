// The four kinds of number, each a type of its own, so that a crew's number can't be passed where a shelf's belongs.
// Only the functions here make one: `checked`, of any number that arrives, and `nth`, where the number is known to be below its count.
ghost use Rattle.std.specs.Prelude.{◌≡◌, ◌<◌, ℕ, ltb, refl, Some, None};
ghost use Rattle.loops.specs.Loops.{pick};

// What the four kinds share.
pub trait Numbered: Copy {
    // The number of one, and the one of a number.
    ghost told: { Self → ℕ };

    ghost made: { ℕ → Self };

    // The number itself.
    fn index(self) -> usize
        ensures { result ≡ told self };

    // The one of a number that is known to be below the count.
    fn nth(number: usize, count: usize) -> Self
        requires { number < count }
        ensures { told result ≡ number };

    // The one of any number, or none.
    final fn checked(number: u32, count: usize) -> Option<Self>
        ensures { result ≡ pick (ltb number count) (Some (made number)) None }
    {
        let n = number as usize;
        if n < count {
            Some(Self::nth(n, count))
        } else {
            None
        }
    }

    ghost is_its_number: { (x : Self) → made (told x) ≡ x };
}

// A depot of a register.
#[derive(Clone, Copy, PartialEq, Eq)]
pub struct Depot(usize);

impl Numbered for Depot {
    ghost told = { λ d. d.0 };

    ghost made = { λ n. record { 0 = n } };

    ghost is_its_number = { λ d. refl };

    fn index(self) -> usize {
        self.0
    }

    fn nth(number: usize, _: usize) -> Depot {
        Depot(number)
    }
}

// A shelf of each depot.
#[derive(Clone, Copy, PartialEq, Eq)]
pub struct Shelf(usize);

impl Numbered for Shelf {
    ghost told = { λ s. s.0 };

    ghost made = { λ n. record { 0 = n } };

    ghost is_its_number = { λ s. refl };

    fn index(self) -> usize {
        self.0
    }

    fn nth(number: usize, _: usize) -> Shelf {
        Shelf(number)
    }
}

// A bearing.
#[derive(Clone, Copy, PartialEq, Eq)]
pub struct Bearing(usize);

impl Numbered for Bearing {
    ghost told = { λ k. k.0 };

    ghost made = { λ n. record { 0 = n } };

    ghost is_its_number = { λ k. refl };

    fn index(self) -> usize {
        self.0
    }

    fn nth(number: usize, _: usize) -> Bearing {
        Bearing(number)
    }
}

// A crew.
#[derive(Clone, Copy, PartialEq, Eq)]
pub struct Crew(usize);

impl Numbered for Crew {
    ghost told = { λ c. c.0 };

    ghost made = { λ n. record { 0 = n } };

    ghost is_its_number = { λ c. refl };

    fn index(self) -> usize {
        self.0
    }

    fn nth(number: usize, _: usize) -> Crew {
        Crew(number)
    }
}
