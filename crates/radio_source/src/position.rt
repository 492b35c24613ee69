//! The position in a body after its bytes so far.
ghost use Rattle.std.specs.Prelude.{◌≡◌, ◌≢◌, ℕ, ◌<◌, ◌≤◌, List, ◌∷◌, [], ◌++◌, length, OnOk, IfOk};
ghost use Rattle.arrayvec.specs.ArrayVec.{array_vec_len};
ghost use Rattle.radio_source.specs.Place.{after_byte, after_line, in_trailer, after, data_of, has_ended, fault_at, plain_start, sized_start, chunked_start};
ghost use Rattle.radio_source.specs.declared.position.TheConstants.{MAX_CHUNK_LINE};
ghost use Rattle.radio_source.specs.declared.position.Stage.TheVariants.{Line};
ghost use Rattle.radio_source.specs.Position.{place_at_stage, data_ahead, past_data};

use crate::chunk_line::{LineReading, read_chunk_line};
use crate::{BodyFault, OutOfMemory};
use arrayvec::ArrayVec;
use radio_blocks::Gathering;
use std::marker::Model;

/// The most bytes that a chunk line may have, CR LF with them.
pub const MAX_CHUNK_LINE: usize = 256;

/// The most bytes that the trailer lines of a body may have, their LFs with them.
pub const MAX_TRAILERS: usize = 4096;

/// What comes next in a body.
#[derive(Clone, Copy)]
pub enum Stage {
    /// Data without an end.
    Plain,
    /// So many bytes of data, and then the end.
    Sized(u64),
    /// The rest of a chunk line.
    Line,
    /// So many bytes of a chunk's data, and then CR LF.
    Chunk(u64),
    /// The LF after a chunk's data.
    LineFeed,
    /// A trailer line or the empty line; trailer lines may have so many more bytes.
    Trailer(usize),
    /// The same after a CR.
    TrailerAfterReturn(usize),
    /// The rest of a trailer line; it and those after it may have so many more bytes.
    TrailerRest(usize),
    /// Nothing: the end has come.
    End,
    /// Nothing: there were bytes after the end.
    BehindTheEnd,
    /// Nothing: there was a byte that no chunked body has there.
    BadByte,
}

/// The position in a body after its bytes so far: what comes next, and the bytes of an unfinished chunk line.
#[derive(Drop)]
pub struct Position {
    stage: Stage,
    line: ArrayVec<u8, MAX_CHUNK_LINE>,
}

impl Model for Position {
    ghost use Rattle.std.specs.Prelude.{◌<◌};
    ghost use Rattle.arrayvec.specs.ArrayVec.{array_vec_len};
    ghost use Rattle.radio_source.specs.Place.{Place};
    ghost use Rattle.radio_source.specs.Position.{place_at_stage};
    ghost use Rattle.radio_source.specs.declared.position.TheConstants.{MAX_CHUNK_LINE};

    ghost Value = { Place };

    ghost view = { λ p. place_at_stage p.stage p.line.items };

    ghost invariant = { λ p. array_vec_len p.line < MAX_CHUNK_LINE };
}

impl Position {
    /// Before the first byte of a plain body.
    pub fn plain() -> Position
        ensures { result ≡ plain_start }
    {
        Position {
            stage: Stage::Plain,
            line: ArrayVec::new(),
        }
    }

    /// Before the first byte of a body of so many bytes.
    pub fn sized(size: u64) -> Position
        ensures { result ≡ sized_start size }
    {
        Position {
            stage: Stage::Sized(size),
            line: ArrayVec::new(),
        }
    }

    /// Before the first byte of a chunked body.
    pub fn chunked() -> Position
        ensures { result ≡ chunked_start }
    {
        Position {
            stage: Stage::Line,
            line: ArrayVec::new(),
        }
    }

    /// Whether the body's end has come.
    pub fn has_ended(&self) -> bool
        ensures { result ≡ has_ended self.now }
    {
        match self.stage {
            Stage::Sized(left) => left == 0,
            Stage::End | Stage::BehindTheEnd => true,
            Stage::Plain
            | Stage::Line
            | Stage::Chunk(_)
            | Stage::LineFeed
            | Stage::Trailer(_)
            | Stage::TrailerAfterReturn(_)
            | Stage::TrailerRest(_)
            | Stage::BadByte => false,
        }
    }

    /// Returns the fault among the bytes so far.
    pub fn fault(&self) -> Option<BodyFault>
        ensures { result ≡ fault_at self.now }
    {
        match self.stage {
            Stage::BehindTheEnd => Some(BodyFault::PastEnd),
            Stage::BadByte => Some(BodyFault::BadChunk),
            Stage::Plain
            | Stage::Sized(_)
            | Stage::Line
            | Stage::Chunk(_)
            | Stage::LineFeed
            | Stage::Trailer(_)
            | Stage::TrailerAfterReturn(_)
            | Stage::TrailerRest(_)
            | Stage::End => None,
        }
    }

    /// Goes past some bytes, and gathers the data among them.
    ///
    /// `OutOfMemory` if memory was refused; the position and what was gathered are then of no use.
    pub fn pass(&mut self, bytes: &[u8], gathering: &mut Gathering) -> Result<(), OutOfMemory>
        ensures place { OnOk result (self.new ≡ after self.old bytes.now) }
        ensures found { OnOk result (gathering.new ≡ gathering.old ++ data_of self.old bytes.now) }
    {
        let mut rest = bytes;
        'pieces: while !rest.is_empty() {
            rest = self.pass_some(rest, gathering)?;
        }
        Ok(())
    }

    // Goes past the data at the front, or past one byte of the framing, and returns the bytes behind.
    // rule: Feed
    fn pass_some<'b>(
        &mut self,
        bytes: &'b [u8],
        gathering: &mut Gathering,
    ) -> Result<&'b [u8], OutOfMemory>
        requires { 0 < length bytes.now }
        ensures shorter { IfOk result (λ rest. length rest.now < length bytes.now) }
        ensures place { IfOk result (λ rest. after self.new rest.now ≡ after self.old bytes.now) }
        ensures found { IfOk result
            (λ rest. gathering.new ++ data_of self.new rest.now ≡ gathering.old ++ data_of self.old bytes.now) }
    {
        let ahead = self.data_ahead(bytes.len());
        if ahead > 0 {
            let (front, rest) = bytes.split_at(ahead);
            gathering.add(front)?;
            self.pass_data(ahead);
            return Ok(rest);
        }
        self.pass_byte(bytes[0]);
        Ok(&bytes[1..])
    }

    // How many of the next bytes are data, without a break.
    fn data_ahead(&self, available: usize) -> usize
        ensures value { result ≡ data_ahead self.now available }
        ensures within { result ≤ available }
    {
        match self.stage {
            Stage::Plain => available,
            Stage::Sized(left) | Stage::Chunk(left) => left.min(available as u64) as usize,
            Stage::Line
            | Stage::LineFeed
            | Stage::Trailer(_)
            | Stage::TrailerAfterReturn(_)
            | Stage::TrailerRest(_)
            | Stage::End
            | Stage::BehindTheEnd
            | Stage::BadByte => 0,
        }
    }

    // Goes past so many bytes of data.
    fn pass_data(&mut self, size: usize)
        ensures { self.new ≡ past_data self.old size }
    {
        let stage = self.stage;
        match stage {
            Stage::Sized(left) => self.stage = Stage::Sized(left.saturating_sub(size as u64)),
            Stage::Chunk(left) => self.stage = Stage::Chunk(left.saturating_sub(size as u64)),
            Stage::Plain
            | Stage::Line
            | Stage::LineFeed
            | Stage::Trailer(_)
            | Stage::TrailerAfterReturn(_)
            | Stage::TrailerRest(_)
            | Stage::End
            | Stage::BehindTheEnd
            | Stage::BadByte => {}
        }
    }

    // Goes past a byte that is no data.
    fn pass_byte(&mut self, byte: u8)
        requires { data_ahead self.old 1 ≡ 0 }
        ensures { self.new ≡ after_byte self.old byte }
    {
        let stage = self.stage;
        match stage {
            Stage::Line => self.stage = pass_line_byte(&mut self.line, byte),
            other @ (Stage::Plain
            | Stage::Sized(_)
            | Stage::Chunk(_)
            | Stage::LineFeed
            | Stage::Trailer(_)
            | Stage::TrailerAfterReturn(_)
            | Stage::TrailerRest(_)
            | Stage::End
            | Stage::BehindTheEnd
            | Stage::BadByte) => {
                self.line.clear();
                self.stage = after_framing(other, byte);
            }
        }
    }
}

// Goes past a byte of a chunk line, of which `line` has come, and returns what comes next.
fn pass_line_byte(line: &mut ArrayVec<u8, MAX_CHUNK_LINE>, byte: u8) -> Stage
    requires { array_vec_len line.old < MAX_CHUNK_LINE }
    ensures place { place_at_stage result line.new.items ≡ after_line (line.old.items ++ byte ∷ []) }
    ensures room { array_vec_len line.new < MAX_CHUNK_LINE }
{
    line.push(byte);
    let stage = match read_chunk_line(line.as_slice()) {
        LineReading::Unfinished if line.len() < MAX_CHUNK_LINE => return Stage::Line,
        LineReading::Unfinished => Stage::BadByte,
        LineReading::Refused => Stage::BadByte,
        LineReading::Whole(0) => Stage::Trailer(MAX_TRAILERS),
        LineReading::Whole(size) => Stage::Chunk(size),
    };
    line.clear();
    stage
}

// What comes after a byte that is neither data nor in a chunk line.
// rule: Chunk
fn after_framing(stage: Stage, byte: u8) -> Stage
    requires framing { stage ≢ Line }
    requires no_data { data_ahead (place_at_stage stage []) 1 ≡ 0 }
    ensures { (line : List ℕ) → place_at_stage result [] ≡ after_byte (place_at_stage stage line) byte }
{
    match (stage, byte) {
        (Stage::Chunk(_), b'\r') => Stage::LineFeed,
        (Stage::LineFeed, b'\n') => Stage::Line,
        (Stage::Trailer(_) | Stage::TrailerAfterReturn(_), b'\n') => Stage::End,
        (Stage::Trailer(left), b'\r') => Stage::TrailerAfterReturn(left),
        (Stage::TrailerRest(left), b'\n') => Stage::Trailer(left.saturating_sub(1)),
        (Stage::Trailer(left) | Stage::TrailerRest(left), _) => after_trailer_bytes(left, 1),
        (Stage::TrailerAfterReturn(left), _) => after_trailer_bytes(left, 2),
        (Stage::Sized(_) | Stage::End | Stage::BehindTheEnd, _) => Stage::BehindTheEnd,
        (Stage::Plain | Stage::Line | Stage::Chunk(_) | Stage::LineFeed | Stage::BadByte, _) => {
            Stage::BadByte
        }
    }
}

// What comes after so many bytes of a trailer line that lack its LF.
fn after_trailer_bytes(left: usize, size: usize) -> Stage
    ensures { place_at_stage result [] ≡ in_trailer left size }
{
    if size < left {
        Stage::TrailerRest(left - size)
    } else {
        Stage::BadByte
    }
}
