use crate::block::Block;

/// What becomes of a datagram.
#[derive(Drop)]
pub enum Piece {
    /// It goes to the store as it came.
    Through,
    /// This answers it.
    Answered(Vec<u8>),
    /// The message that the store takes, and the block that its reply has to name.
    Whole { message: Vec<u8>, block: Block },
}
