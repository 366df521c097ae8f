// Recovery: how it stands, and how it ended.

// Why recovery stopped, if it did: a record whose call is refused, with the refusal's number, or a byte that is no kind.
#[derive(Clone, Copy)]
pub enum Fault {
    Fine,
    Refused(u32),
    Strange,
}
