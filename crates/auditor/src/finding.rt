// What the auditor finds. Entries are numbered from 0.
#[derive(Clone, Copy)]
pub enum Finding {
    // More than 256 entries.
    TooMany,
    // The words are no whole number of entries.
    BadLength,
    // The lowest entry that no history has.
    Refused(u32),
    // The first entry that rests on itself.
    Circle(u32),
    // The first read that is lower than a write in its past.
    Low(u32),
    Causal,
}
