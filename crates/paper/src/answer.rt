// What a call answers. A definition in specs/Answers.antt gives the paper's number and values for each case.

// Why a call was refused.
#[derive(Clone, Copy)]
pub enum Refusal {
    BadBook,
    BadDepot,
    BadShelf,
    BadKey,
    BadCrew,
    SameDepot,
    EmptyLink,
    Wait,
    LinkFull,
    ClockAtEnd,
    BadCounts,
    NotHereYet,
    BadDate,
    BadCard,
    BadList,
}

// The last day that a value may name, 31 December 2399: the calendar's last day.
pub const LAST_DAY: u32 = 146_096;

// What is written of a bearing: the value, which is a day, and its card as two words, the bits of the outside diameter and of the width.
#[derive(Clone, Copy)]
pub struct Payload {
    pub value: u32,
    pub diameter: u32,
    pub width: u32,
}

// What a read tells: the value with its card, none where the bearing is unwritten, and the version's vector, of which the first `depots` entries count. 0 stands elsewhere.
#[derive(Clone, Copy)]
pub struct Reading {
    pub payload: Option<Payload>,
    pub vector: [u32; 4],
    pub depots: usize,
}

// What a write tells: its stamp, and whether the version is current or superseded.
#[derive(Clone, Copy)]
pub enum Written {
    Current(u32),
    Superseded(u32),
}

// What a list tells: eight words for each bearing, in list order, in room for eight bearings. They are 1 and the value with its card's two words, or 1's place and these 0 where
// the bearing is unwritten; then room for the four entries of its vector, of which the first `depots` count. 0 stands elsewhere.
#[derive(Clone, Copy)]
pub struct Page {
    pub bearings: usize,
    pub depots: usize,
    pub words: [u32; 64],
}
