//! The readings of a request's head and of a response's.
ghost use Rattle.std.specs.Prelude.{◌≡◌, ◌≤◌, length, take, IfOk, IfErr, OnErr, IfSome, IfNone};
ghost use Rattle.radio_heads.specs.Search.{HasNoEnd};
ghost use Rattle.radio_heads.specs.Head.{ShowsRequest};
ghost use Rattle.radio_heads.specs.Response.{ShowsResponse};
ghost use Rattle.radio_heads.specs.Reading.{IsReading, IsWithin, IsFront, IsUnfinished, IsTooLong};

use crate::head::Head;
use crate::outcome::{HeadFault, Progress};
use crate::response::ResponseHead;
use crate::search::{MAX_HEAD, head_end};

/// Reads the head of a request at the front of `bytes`.
///
/// The front is the shortest one that ends a head: the first place, after the first byte that is
/// neither CR nor LF, where an LF is followed by LF or by CR LF; at most 8192 bytes. It is a head
/// where the grammar of HTTP/1 (RFC 9112, sections 2 to 5) accepts the whole front, with at most
/// 64 headers.
///
/// - `Whole`: that head, and the length of the front.
/// - `More`: fewer than 8192 bytes have come, and none ends a head.
///
/// Errors, which more bytes never mend:
///
/// - `HeadTooLong`: the first 8192 bytes hold no end of a head.
/// - `BadHead`, `TooManyHeaders`: the front is no such head.
///
/// It allocates nothing, and costs time linear in the bytes up to the end of the head.
// rule: Longest head
pub fn read_request<'b>(bytes: &'b [u8]) -> Result<Progress<Head<'b>>, HeadFault>
    ensures reading { IsReading ShowsRequest bytes.now result }
    ensures within { IfOk result (IsWithin bytes.now) }
{
    read_request_from(bytes, 0)
}

/// Reads as `read_request` does, given that the first `seen` bytes hold no end of a head: all the
/// bytes of an earlier reading that gave `More`.
///
/// The search for the end looks at the empty lines before the first text, and then at the bytes from
/// two before `seen` on; the grammar reads the head once, when its end has come. So a caller that
/// reads after each byte pays for each byte once, and at each reading for leading empty lines, which
/// no real client sends. With `read_request` it would pay at each reading for all that has come.
// rule: Longest head
pub fn read_request_from<'b>(bytes: &'b [u8], seen: usize) -> Result<Progress<Head<'b>>, HeadFault>
    requires in_range { seen ≤ length bytes.now }
    requires searched { HasNoEnd (take seen bytes.now) }
    ensures reading { IsReading ShowsRequest bytes.now result }
    ensures within { IfOk result (IsWithin bytes.now) }
{
    match front(bytes, seen) {
        Ok(Some(length)) => match Head::read(&bytes[..length]) {
            Ok(head) => Ok(Progress::Whole(head, length)),
            Err(fault) => Err(fault),
        },
        Ok(None) => Ok(Progress::More),
        Err(fault) => Err(fault),
    }
}

/// Reads the head of a response at the front of `bytes`, in all else as `read_request` does.
pub fn read_response<'b>(bytes: &'b [u8]) -> Result<Progress<ResponseHead<'b>>, HeadFault>
    ensures reading { IsReading ShowsResponse bytes.now result }
    ensures within { IfOk result (IsWithin bytes.now) }
{
    read_response_from(bytes, 0)
}

/// Reads as `read_response` does, given that the first `seen` bytes hold no end of a head. It costs
/// what `read_request_from` does.
pub fn read_response_from<'b>(
    bytes: &'b [u8],
    seen: usize,
) -> Result<Progress<ResponseHead<'b>>, HeadFault>
    requires in_range { seen ≤ length bytes.now }
    requires searched { HasNoEnd (take seen bytes.now) }
    ensures reading { IsReading ShowsResponse bytes.now result }
    ensures within { IfOk result (IsWithin bytes.now) }
{
    match front(bytes, seen) {
        Ok(Some(length)) => match ResponseHead::read(&bytes[..length]) {
            Ok(head) => Ok(Progress::Whole(head, length)),
            Err(fault) => Err(fault),
        },
        Ok(None) => Ok(Progress::More),
        Err(fault) => Err(fault),
    }
}

/// The length of the front; `None` while no head has ended and there is room for more bytes.
fn front(bytes: &[u8], seen: usize) -> Result<Option<usize>, HeadFault>
    requires in_range { seen ≤ length bytes.now }
    requires searched { HasNoEnd (take seen bytes.now) }
    ensures front { IfOk result (λ found. IfSome found (IsFront bytes.now)) }
    ensures within { IfOk result (λ found. IfSome found (λ n. n ≤ length bytes.now)) }
    ensures more { IfOk result (λ found. IfNone found (IsUnfinished bytes.now)) }
    ensures too_long { OnErr result (IsTooLong bytes.now) }
    ensures fault { IfErr result (λ e. e ≡ HeadFault.HeadTooLong) }
{
    let window = &bytes[..bytes.len().min(MAX_HEAD)];
    match head_end(window, seen.min(MAX_HEAD)) {
        Some(end) => Ok(Some(end)),
        None if bytes.len() < MAX_HEAD => Ok(None),
        None => Err(HeadFault::HeadTooLong),
    }
}
