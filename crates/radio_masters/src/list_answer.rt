//! What a master answers to the request for its list of streams.

ghost use Rattle.std.specs.Prelude.{◌≡◌, ◌≢◌, List, ℕ, Some, None, Ok, Err, IfOk, IfErr};
ghost use Rattle.radio_texts.specs.Numbers.{number_of};
ghost use Rattle.radio_relay.specs.StreamList.{names_listed};
ghost use Rattle.radio_masters.specs.declared.list_answer.MasterListFault.TheVariants.{OutOfMemory as NoMemory};
ghost use Rattle.radio_masters.specs.ListAnswers.{IsListBody, body_by, body_in, body_of_length, max_list};

use crate::OutOfMemory;
use radio_heads::{Progress, ResponseHead, read_response};
use radio_relay::read_stream_list;
use radio_texts::read_number;
use radio_values::MountName;
use std::alloc::Global;
use std::collections::BTreeSet;
use thiserror::Error;

/// The longest list that is taken, in bytes.
pub const MAX_LIST: u64 = 1_048_576;

/// Why an answer has no list.
#[derive(Clone, Copy, Debug, PartialEq, Eq, Error)]
pub enum MasterListFault {
    /// The master answers with this status (RFC 9110, section 15), which is not 200.
    #[error("status {0}")]
    Status(u16),
    /// What has come is no head of an answer (RFC 9112, section 4), or the head has a `Transfer-Encoding`.
    #[error("bad head")]
    BadHead,
    /// The list is longer than [`MAX_LIST`], or its `Content-Length` is no number up to that.
    #[error("too long")]
    TooLong,
    /// The answer has not come whole.
    #[error("cut")]
    Cut,
    /// There was no memory for it.
    #[error("out of memory")]
    OutOfMemory,
}

impl From<OutOfMemory> for MasterListFault {
    ghost use Rattle.radio_masters.specs.declared.list_answer.MasterListFault.TheVariants.{OutOfMemory as NoMemory};

    ghost from_gives = { λ _ fault. fault ≡ NoMemory };

    fn from(_error: OutOfMemory) -> MasterListFault
        ensures { result ≡ NoMemory }
    {
        MasterListFault::OutOfMemory
    }
}

/// Returns the mounts in a master's answer to the request for its list, of which these bytes have come: the lines of
/// its body that name one, each once, in the order of their bytes. The body has the length of `Content-Length` (RFC
/// 9112, section 6). Without that header it ends at the master's close.
///
/// Errors, of which the first that applies comes: `Cut` if the head has not ended, `BadHead`, `Status`, `BadHead` for
/// a `Transfer-Encoding`, `TooLong`, `Cut`; `OutOfMemory` if memory was refused.
// rule: List of a slave; Failed list
pub fn read_list_answer(
    alloc: Global,
    bytes: &[u8],
    has_closed: bool,
) -> Result<BTreeSet<MountName>, MasterListFault>
    ensures list { IfOk result (λ names. (body : List ℕ) × IsListBody bytes.now has_closed (Ok body) × (names.keys ≡ names_listed body)) }
    ensures fault { IfErr result (λ fault. fault ≢ NoMemory → IsListBody bytes.now has_closed (Err fault)) }
{
    match body_of(bytes, has_closed) {
        Ok(body) => match read_stream_list(alloc, body) {
            Ok(names) => Ok(names),
            Err(_) => Err(MasterListFault::OutOfMemory),
        },
        Err(fault) => Err(fault),
    }
}

/// The body of the answer of which these bytes have come.
fn body_of(bytes: &[u8], has_closed: bool) -> Result<&[u8], MasterListFault>
    ensures body { IfOk result (λ body. IsListBody bytes.now has_closed (Ok body.now)) }
    ensures fault { IfErr result (λ fault. IsListBody bytes.now has_closed (Err fault)) }
{
    match read_response(bytes) {
        Ok(Progress::More) => Err(MasterListFault::Cut),
        Ok(Progress::Whole(head, length)) => body_in(&head, &bytes[length..], has_closed),
        Err(_) => Err(MasterListFault::BadHead),
    }
}

/// The body behind a whole head.
fn body_in<'b>(
    head: &ResponseHead,
    rest: &'b [u8],
    has_closed: bool,
) -> Result<&'b [u8], MasterListFault>
    ensures body { IfOk result (λ body. body_in has_closed head.now rest.now ≡ Ok body.now) }
    ensures fault { IfErr result (λ fault. body_in has_closed head.now rest.now ≡ Err fault) }
{
    let status = head.status();
    if status != 200 {
        return Err(MasterListFault::Status(status));
    }
    if head.value("Transfer-Encoding").is_some() {
        return Err(MasterListFault::BadHead);
    }
    match head.value("Content-Length") {
        Some(text) => body_of_length(text, rest),
        None => body_to_the_end(rest, has_closed),
    }
}

/// Returns the body whose length this text says.
fn body_of_length<'b>(text: &[u8], rest: &'b [u8]) -> Result<&'b [u8], MasterListFault>
    ensures body { IfOk result (λ body. body_of_length (number_of 10 max_list text.now) rest.now ≡ Ok body.now) }
    ensures fault { IfErr result (λ fault. body_of_length (number_of 10 max_list text.now) rest.now ≡ Err fault) }
{
    match read_number(text, 10, MAX_LIST) {
        Some(length) => front(rest, length as usize),
        None => Err(MasterListFault::TooLong),
    }
}

/// So many bytes, if they have come.
fn front(rest: &[u8], length: usize) -> Result<&[u8], MasterListFault>
    ensures body { IfOk result (λ body. body_of_length (Some length) rest.now ≡ Ok body.now) }
    ensures fault { IfErr result (λ fault. body_of_length (Some length) rest.now ≡ Err fault) }
{
    if rest.len() < length {
        return Err(MasterListFault::Cut);
    }
    Ok(&rest[..length])
}

/// Returns the body that ends at the master's close.
fn body_to_the_end(rest: &[u8], has_closed: bool) -> Result<&[u8], MasterListFault>
    ensures body { IfOk result (λ body. body_by has_closed None rest.now ≡ Ok body.now) }
    ensures fault { IfErr result (λ fault. body_by has_closed None rest.now ≡ Err fault) }
{
    if rest.len() as u64 > MAX_LIST {
        return Err(MasterListFault::TooLong);
    }
    if !has_closed {
        return Err(MasterListFault::Cut);
    }
    Ok(rest)
}
