// The paper's number of each refusal, and of a call's answer.
ghost use Rattle.std.specs.Prelude.{◌≡◌};
ghost use Rattle.paper.specs.Calls.{number_in};
ghost use Rattle.paper.specs.Answers.{number_of, paper};

use crate::answer::Refusal;

// The number of a refusal.
#[tactic(auto, unfolding(crate::specs::Answers::number_of))]
pub fn number_of(r: Refusal) -> u32
    ensures { result ≡ number_of r }
{
    match r {
        Refusal::BadBook => 1,
        Refusal::BadDepot => 2,
        Refusal::BadShelf => 3,
        Refusal::BadKey => 4,
        Refusal::BadCrew => 5,
        Refusal::SameDepot => 6,
        Refusal::EmptyLink => 7,
        Refusal::Wait => 8,
        Refusal::LinkFull => 9,
        Refusal::ClockAtEnd => 10,
        Refusal::BadCounts => 11,
        Refusal::NotHereYet => 12,
        Refusal::BadDate => 16,
        Refusal::BadCard => 14,
        Refusal::BadList => 15,
    }
}

// The number of what a setup, a tick, a take, a refresh or a move answers: 0 is done.
pub fn number_in(answer: Result<(), Refusal>) -> u32
    ensures { result ≡ number_in (paper answer) }
{
    match answer {
        Ok(()) => 0,
        Err(r) => number_of(r),
    }
}
