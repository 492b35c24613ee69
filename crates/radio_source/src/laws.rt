//! Laws: what is true of every body, by the definitions that the calls cite.
//!
//! Each law is a function that does nothing, and its contract is the law.
//! A caller that needs a law in a proof calls the function, and cites its clause.
ghost use Rattle.std.specs.Prelude.{◌≡◌, ◌≢◌, ◌↔◌, ℕ, ◌<◌, ◌≤◌, List, [], ◌∷◌, ◌++◌, length, take, All, ◌-◌, Some, None, true, false};
ghost use Rattle.std.specs.List.{concat};
ghost use Rattle.httparse.specs.Grammar.{ChunkLine, ReadsChunkLine, chunk_size, print_chunk_line, HasNoChunkLine, NeverHasChunkLine, MayBecomeChunkLine};
ghost use Rattle.radio_source.specs.declared.chunk_line.LineReading.TheVariants.{Unfinished, Whole, Refused};
ghost use Rattle.radio_source.specs.declared.fault.BodyFault.TheVariants.{PastEnd};
ghost use Rattle.radio_source.specs.ChunkLine.{chunk_line_in};
ghost use Rattle.radio_source.specs.Place.{Place, InChunk, AtEnd, PastTheEnd, Broken, plain_start, sized_start, chunked_start};
ghost use Rattle.radio_source.specs.Place.{after, data_of, has_ended, fault_at};
ghost use Rattle.radio_source.specs.Feeding.{unfed};
ghost use Rattle.radio_source.specs.Outputs.{outputs_of_feeds, outputs_of_bytes};
ghost use Rattle.radio_source.specs.Chunked.{Chunk, IsChunk, IsShortLine, print_chunks, content_of, ChunkedBody, IsBody, print_body, HasRoomForItsLine};

use radio_blocks::laws::blocks_are_the_data;

/// However a body is cut into pieces, with an empty piece fed last, its feeds put out what its bytes mean. First come
/// all its data in order, then its end, once, if it has come. Last comes the fault among the bytes, once, if there is
/// one.
// rule: Feed
pub fn cuts_do_not_matter()
    ensures { (place : Place) (pieces : List (List ℕ)) → fault_at place ≡ None
        → outputs_of_feeds (unfed place) (pieces ++ [] ∷ []) ≡ outputs_of_bytes place (concat pieces) }
{
    blocks_are_the_data();
}

/// Two pieces one after another are what both are as one: so what a front brings is a front of what the whole does.
pub fn pieces_are_joined()
    ensures place { (place : Place) (first second : List ℕ)
        → after place (first ++ second) ≡ after (after place first) second }
    ensures found { (place : Place) (first second : List ℕ)
        → data_of place (first ++ second) ≡ data_of place first ++ data_of (after place first) second }
{}

/// A plain body is all data, and has neither an end nor a fault.
pub fn plain_bodies()
    ensures found { (bytes : List ℕ) → data_of plain_start bytes ≡ bytes }
    ensures place { (bytes : List ℕ) → after plain_start bytes ≡ plain_start }
{}

/// The data of a body of n bytes are its first n bytes. It has ended when n bytes have come, and one byte more is
/// `PastEnd`.
// rule: Sized body
pub fn sized_bodies()
    ensures found { (n : ℕ) (bytes : List ℕ) → data_of (sized_start n) bytes ≡ take n bytes }
    ensures open { (n : ℕ) (bytes : List ℕ) → length bytes < n
        → (has_ended (after (sized_start n) bytes) ≡ false) × (fault_at (after (sized_start n) bytes) ≡ None) }
    ensures ended { (n : ℕ) (bytes : List ℕ) → length bytes ≡ n
        → (has_ended (after (sized_start n) bytes) ≡ true) × (fault_at (after (sized_start n) bytes) ≡ None) }
    ensures passed { (n : ℕ) (bytes : List ℕ) → n < length bytes
        → (has_ended (after (sized_start n) bytes) ≡ true) × (fault_at (after (sized_start n) bytes) ≡ Some PastEnd) }
{}

/// A chunk line is read as `httparse` states it. It is whole with its size if one is at the front, and unfinished if
/// none is but one may come. It is refused if none can come any more.
// rule: Chunk
pub fn chunk_lines()
    ensures whole { (bytes : List ℕ) (size : ℕ) → chunk_line_in bytes ≡ Whole size
        ↔ ((l : ChunkLine) × (rest : List ℕ) × ReadsChunkLine bytes l rest × (chunk_size l ≡ size)) }
    ensures unfinished { (bytes : List ℕ) → chunk_line_in bytes ≡ Unfinished
        ↔ (HasNoChunkLine bytes × MayBecomeChunkLine bytes) }
    ensures refused { (bytes : List ℕ) → chunk_line_in bytes ≡ Refused ↔ NeverHasChunkLine bytes }
{}

/// Chunks of the grammar, printed and fed, are their data, and a chunk line may follow them.
pub fn chunks_are_their_data()
    ensures found { (chunks : List Chunk) → All IsChunk chunks
        → data_of chunked_start (print_chunks chunks) ≡ content_of chunks }
    ensures place { (chunks : List Chunk) → All IsChunk chunks
        → after chunked_start (print_chunks chunks) ≡ chunked_start }
{}

/// The data of a chunk are brought as they come, before the chunk is whole.
// rule: Place of a fault
pub fn unfinished_chunks_bring_their_data()
    ensures found { (chunks : List Chunk) (line : ChunkLine) (front : List ℕ)
        → All IsChunk chunks → IsShortLine line → 0 < chunk_size line → length front ≤ chunk_size line
        → data_of chunked_start (print_chunks chunks ++ (print_chunk_line line ++ front)) ≡ content_of chunks ++ front }
    ensures place { (chunks : List Chunk) (line : ChunkLine) (front : List ℕ)
        → All IsChunk chunks → IsShortLine line → 0 < chunk_size line → length front ≤ chunk_size line
        → after chunked_start (print_chunks chunks ++ (print_chunk_line line ++ front))
        ≡ InChunk (chunk_size line - length front) }
{}

/// A whole body of the grammar, with its trailers, is complete; its data are those of its chunks. Bytes behind it are
/// past the end.
// rule: Last chunk
pub fn whole_bodies_are_complete()
    ensures found { (b : ChunkedBody) → IsBody b → data_of chunked_start (print_body b) ≡ content_of b.chunks }
    ensures place { (b : ChunkedBody) → IsBody b → after chunked_start (print_body b) ≡ AtEnd }
    ensures passed { (b : ChunkedBody) (more : List ℕ) → IsBody b → more ≢ []
        → after chunked_start (print_body b ++ more) ≡ PastTheEnd }
{}

/// What is complete is a whole body of the grammar.
// rule: Last chunk
pub fn complete_bodies_are_whole()
    ensures { (bytes : List ℕ) → after chunked_start bytes ≡ AtEnd
        → (b : ChunkedBody) × IsBody b × (bytes ≡ print_body b) }
{}

/// What is refused begins no body of the grammar, whatever may follow.
pub fn refused_bytes_begin_no_body()
    ensures { (bytes more rest : List ℕ) (b : ChunkedBody) → after chunked_start bytes ≡ Broken
        → IsBody b → bytes ++ more ≢ print_body b ++ rest }
{}

/// What is not refused begins a body of the grammar, unless it ends in more than 253 bytes of a chunk line. So a fault
/// comes at the first byte that no body has there, but for a line that is too long: its fault comes at its 256th byte.
pub fn other_bytes_begin_a_body()
    ensures { (bytes : List ℕ) → fault_at (after chunked_start bytes) ≡ None
        → HasRoomForItsLine (after chunked_start bytes)
        → (more : List ℕ) × (b : ChunkedBody) × IsBody b × (bytes ++ more ≡ print_body b) }
{}
