//! What a reading of a head gives.

use thiserror::Error;

/// How far a head has come.
#[derive(Debug, Drop)]
pub enum Progress<T> {
    /// No head has ended yet, and there is room for more bytes.
    More,
    /// The head, and its length in bytes: what it is followed by begins there.
    Whole(T, usize),
}

/// Why bytes are no head. More bytes never mend them.
#[derive(Clone, Copy, Debug, PartialEq, Eq, Error)]
pub enum HeadFault {
    /// The front that ends as a head does is not one by the grammar of HTTP/1.
    #[error("bad head")]
    BadHead,
    /// The head has more than 64 header lines.
    #[error("too many headers")]
    TooManyHeaders,
    /// 8192 bytes have come, and no head ends among them.
    #[error("head too long")]
    HeadTooLong,
}
