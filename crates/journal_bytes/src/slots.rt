use crate::change::Format;

/// The two slots of a journal, of which one is present and names the area behind which its records stand.
#[derive(Clone, Copy, Debug, Drop, PartialEq, Eq)]
pub struct Slots {
    /// Where slot one stands.
    pub at: u64,
    /// Whether slot two is the present one.
    pub second: bool,
    /// The present slot's number, from 0 to 3.
    pub number: u8,
    /// Where the present area starts.
    pub start: u64,
    /// The length of the present area with its gate.
    pub bytes: u64,
    /// The format of the present area, and of the records behind it.
    pub format: Format,
}
