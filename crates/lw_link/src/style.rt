/// Which spellings of a list are meant.
#[derive(Clone, Copy)]
pub(crate) enum Style {
    /// All that the grammar allows.
    Any,
    /// The one that printing gives.
    Printed,
}
