//! Arrays and objects that are open while a text is parsed.

/// An array or an object that is open, with what was made of it so far.
#[derive(Drop)]
pub enum Frame<I, M, K> {
    Array(I),
    Object(OpenObject<M, K>),
}

/// The members so far of an object that is open, and the key that waits for its value while a container inside is open.
#[derive(Drop)]
pub struct OpenObject<M, K> {
    pub members: M,
    pub key: K,
}
