// The version that a write makes.
use card::Card;

#[derive(Clone, Copy)]
pub struct Version {
    pub bearing: u32,
    pub value: u32,
    pub card: Card,
    pub origin: u32,
    pub vector: [u32; 4],
}
