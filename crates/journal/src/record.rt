// The records of a journal.

// What a record's first byte names.
#[derive(Clone, Copy)]
pub enum Kind {
    Setup,
    Read,
    Write,
    Tick,
    Take,
    Refresh,
    Move,
    Page,
}
