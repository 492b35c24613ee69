//! What is kept of a request.

ghost use Rattle.std.specs.Prelude.{◌≡◌, ◌≤◌, [], take, length, IfOk, unwrap_or};
ghost use Rattle.std.specs.Option.{IfSome};
ghost use Rattle.radio_heads.specs.Headers.{value_of as header_value};
ghost use Rattle.radio_notes.specs.Requests.{front_of, kept_of_head, kept_of_listener, user_of_pair};

use crate::OutOfMemory;
use radio_admin::read_path;
use radio_creds::{Pair, basic};
use radio_events::ListenRequest;
use radio_heads::Head;
use std::alloc::Global;
use std::marker::Model;

/// How many bytes of a path, of a user and of a user agent are kept at most.
const MOST_KEPT: usize = 255;

/// What is kept of a request: its method, its path without its query, the user that it names, and its user agent.
///
/// In contracts it is a `Kept`.
#[derive(Drop)]
pub struct Request {
    /// These four, one behind the other.
    bytes: Vec<u8>,
    path_at: u16,
    user_at: u16,
    agent_at: u16,
}

impl Model for Request {
    ghost use Rattle.std.specs.Prelude.{◌-◌, ◌≤◌, length, take, drop};
    ghost use Rattle.radio_notes.specs.Kept.{Kept};

    ghost Value = { Kept };

    ghost view = { λ r. record {
      method = take r.path_at r.bytes.items;
      path = take (r.user_at - r.path_at) (drop r.path_at r.bytes.items);
      user = take (r.agent_at - r.user_at) (drop r.user_at r.bytes.items);
      agent = drop r.agent_at r.bytes.items;
    } };

    ghost invariant = { λ r. (r.path_at ≤ r.user_at) × (r.user_at ≤ r.agent_at) × (r.agent_at ≤ length r.bytes.items) };
}

impl Request {
    /// What is kept of the request of this head; `None` if memory is refused.
    // rule: Line of the log
    pub(crate) fn of(alloc: Global, head: &Head) -> Option<Request>
        ensures { IfSome result (λ kept. kept ≡ kept_of_head head.now) }
    {
        match Request::read(alloc, head) {
            Ok(request) => Some(request),
            Err(_) => None,
        }
    }

    fn read(alloc: Global, head: &Head) -> Result<Request, OutOfMemory>
        ensures { IfOk result (λ kept. kept ≡ kept_of_head head.now) }
    {
        let path = read_path(alloc, head.path())?;
        let agent = value_of(head, "User-Agent");
        let pair = basic(alloc, value_of(head, "Authorization"))?;
        Request::join(
            alloc,
            front_of(head.method()),
            front_of(path.as_slice()),
            front_of(user_of(&pair)),
            front_of(agent),
        )
    }

    /// What is kept of the request of a listener with this user agent; `None` if memory is refused.
    // rule: Line of the log
    pub(crate) fn of_listener(alloc: Global, asked: &ListenRequest, agent: &[u8]) -> Option<Request>
        ensures { IfSome result (λ kept. kept ≡ kept_of_listener asked.now agent.now) }
    {
        let path = front_of(asked.mount.as_slice());
        let user = front_of(user_of(&asked.pair));
        match Request::join(alloc, b"GET", path, user, front_of(agent)) {
            Ok(request) => Some(request),
            Err(_) => None,
        }
    }

    fn join(
        alloc: Global,
        method: &[u8],
        path: &[u8],
        user: &[u8],
        agent: &[u8],
    ) -> Result<Request, OutOfMemory>
        requires method { length method.now ≤ 255 }
        requires path { length path.now ≤ 255 }
        requires user { length user.now ≤ 255 }
        requires agent { length agent.now ≤ 255 }
        ensures { IfOk result (λ kept. kept ≡ record { method = method.now; path = path.now; user = user.now; agent = agent.now }) }
    {
        let user_at = method.len() + path.len();
        let agent_at = user_at + user.len();
        let mut bytes = Vec::with_capacity(alloc, agent_at + agent.len())?;
        bytes.extend_from_slice(method)?;
        bytes.extend_from_slice(path)?;
        bytes.extend_from_slice(user)?;
        bytes.extend_from_slice(agent)?;
        Ok(Request {
            bytes,
            path_at: method.len() as u16,
            user_at: user_at as u16,
            agent_at: agent_at as u16,
        })
    }

    /// The method; at most 255 bytes of it.
    pub(crate) fn method(&self) -> &[u8]
        ensures { result.now ≡ self.now.method }
    {
        &self.bytes.as_slice()[..self.path_at as usize]
    }

    /// The path without the query; at most 255 bytes of it.
    pub(crate) fn path(&self) -> &[u8]
        ensures { result.now ≡ self.now.path }
    {
        &self.bytes.as_slice()[self.path_at as usize..self.user_at as usize]
    }

    /// The user that it names; at most 255 bytes of it.
    pub(crate) fn user(&self) -> &[u8]
        ensures { result.now ≡ self.now.user }
    {
        &self.bytes.as_slice()[self.user_at as usize..self.agent_at as usize]
    }

    /// The user agent; at most 255 bytes of it.
    pub(crate) fn agent(&self) -> &[u8]
        ensures { result.now ≡ self.now.agent }
    {
        &self.bytes.as_slice()[self.agent_at as usize..]
    }
}

/// The user of a pair, empty if there is none.
pub(crate) fn user_of(pair: &Option<Pair>) -> &[u8]
    ensures { result.now ≡ user_of_pair pair.now }
{
    match pair {
        Some(pair) => pair.user(),
        None => b"",
    }
}

/// The value of a header, empty if it is not there.
fn value_of<'b>(head: &Head<'b>, name: &str) -> &'b [u8]
    ensures { result.now ≡ unwrap_or (header_value name.now head.now.headers) [] }
{
    match head.value(name) {
        Some(value) => value,
        None => b"",
    }
}

/// As many of the bytes as are kept.
#[tactic(auto, using(std::proofs::lemmas::List::take_min))]
fn front_of(bytes: &[u8]) -> &[u8]
    ensures front { result.now ≡ front_of bytes.now }
    ensures length { length result.now ≤ 255 }
{
    &bytes[..MOST_KEPT.min(bytes.len())]
}
