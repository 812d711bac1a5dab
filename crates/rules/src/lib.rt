// Document 01's rules of the lower level: definitions and statements in specs/, in the document's order, and their laws in
// proofs/. There is no code.
#![tactic(auto)]

// The room of a tree: document 01's number, and the blocks of each order, 0 to 18, that its entries promise. It is no Result, as the
// document wants a struct by value, with the counts and a code.
#[derive(Clone, Copy)]
pub struct Rooms {
    pub code: u32,
    pub counts: [usize; 19],
}

// How a start leaves the frames below N.
#[derive(Clone, Copy)]
pub enum Init {
    FreeAll,
    AllocAll,
}
