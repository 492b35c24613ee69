//! The line before a chunk (RFC 9112, section 7.1).
ghost use Rattle.std.specs.Prelude.{◌≡◌};
ghost use Rattle.radio_source.specs.ChunkLine.{chunk_line_in};

use httparse::{Status, parse_chunk_size};

/// What some bytes hold of a chunk line.
#[derive(Clone, Copy)]
pub enum LineReading {
    /// A part of one.
    Unfinished,
    /// A whole one, of a chunk with so many bytes of data.
    Whole(u64),
    /// None, whatever may follow.
    Refused,
}

/// Reads the chunk line that some bytes begin with.
pub fn read_chunk_line(bytes: &[u8]) -> LineReading
    ensures { result ≡ chunk_line_in bytes.now }
{
    match parse_chunk_size(bytes) {
        Ok(Status::Complete((_, size))) => LineReading::Whole(size),
        Ok(Status::Partial) => LineReading::Unfinished,
        Err(_) => LineReading::Refused,
    }
}
