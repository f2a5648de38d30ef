// Why there are no bytes of a file.

/// Why there are no bytes of a file.
#[derive(Clone, Copy, Debug, PartialEq, Eq)]
pub enum ReadError {
    /// A call failed, and the count of the file's name rose.
    Failed,
    /// The file has more bytes than the limit.
    TooLarge,
    /// Want of memory.
    Memory,
}
