use rule::{Order, Refusal};

// The number of flags, the order, and the number of records used.
#[derive(Clone, Copy)]
pub struct Store {
    pub n: u8,
    pub order: Order,
    pub used: u16,
}

// The state after a call, beside what the call answers.
#[derive(Clone, Copy)]
pub struct Kept<T> {
    pub store: Store,
    pub answer: Result<T, Refusal>,
}
