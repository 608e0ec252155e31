/// What becomes of a datagram that may bring a notification, or the rest of one.
#[derive(Drop)]
pub enum Parcel {
    /// It goes to the store as it came.
    Through,
    /// More has to come of the fetch with the number: what acknowledges the datagram, and what asks for the next block,
    /// with message ID 0.
    Taken {
        acknowledgement: Option<Vec<u8>>,
        request: Vec<u8>,
        fetch: u32,
    },
    /// What acknowledges the datagram, the message that the store takes, and whether nothing of it is missing.
    Whole {
        acknowledgement: Option<Vec<u8>>,
        message: Vec<u8>,
        is_complete: bool,
    },
}
