//! What the live mounts' sessions are asked.

ghost use Rattle.std.specs.Prelude.{◌≡◌, ◌+◌, ◌-◌, ◌^◌, nat_lt, find, fold, map};
ghost use Rattle.std.specs.Cmp.Lexicographic.{slice_cmp};
ghost use Rattle.std.specs.List.Sorted.{IsStrictlySortedBy};
ghost use Rattle.std.specs.Option.{option_copied};
ghost use Rattle.std.specs.Ordering.{nat_cmp};
ghost use Rattle.radio_parts_mount.specs.Due.{earliest, last_moment, session_due};
ghost use Rattle.radio_parts_mount.specs.StatePart.{ends_in};
ghost use Rattle.radio_parts_mount.specs.Sessions.{Session as SessionOf};
ghost use Rattle.radio_parts_mount.specs.Timeouts.{is_silent};
ghost use Rattle.radio_parts_table.specs.Parts.{earlier_due, has_session, live_in};

use crate::parts::MountParts;
use radio_parts_mount::{LAST_MOMENT, ListedPart, Session, due_at, lies_back};
use radio_tables::Table;
use radio_values::MountName;

impl MountParts {
    /// Returns all parts, in the order of the mounts' names.
    pub fn all(&self) -> &Table<ListedPart>
        ensures { live_in result.now ≡ self.now.live }
    {
        &self.parts
    }

    /// Returns whether the mount's stream would have more bytes than can be counted with so many more.
    pub fn is_spent_by(&self, mount: &MountName, more: u64) -> bool
        ensures { result ≡ nat_lt (2 ^ 64 - 1) (ends_in self.now.live mount.now + more) }
    {
        // no stream goes further, so that none is looked up before one has nearly 2^64 bytes
        if self.furthest.checked_add(more).is_some() {
            return false;
        }
        self.stream_end(mount)
            .bytes_before()
            .checked_add(more)
            .is_none()
    }

    /// Returns the first session, in the order of the mounts' names, whose source has sent nothing in
    /// so many seconds.
    pub fn first_silent(&self, seconds: u32, now: u64) -> Option<&Session>
        ensures first { option_copied result ≡ find (is_silent seconds now) self.now.live }
        // so that each ends once
        ensures rising { IsStrictlySortedBy (slice_cmp nat_cmp) (map (λ (session : SessionOf). session.mount) self.now.live) }
    {
        // the parts are in the order of their mounts
        let _ = self.parts.len();
        let Some(part) = silent_part(&self.parts, seconds, now) else {
            return None;
        };
        part.session()
    }

    /// Returns the earliest moment at which a session is due whose source may send nothing for so many
    /// seconds; the last moment if no mount is live. The time grows as the number of parts.
    pub fn first_session_due(&self, seconds: u32) -> u64
        ensures { result ≡ earliest (session_due seconds) self.now.live }
    {
        earliest_due(&self.parts, seconds)
    }
}

/// Returns the first part whose source has sent nothing in so many seconds.
fn silent_part(parts: &Table<ListedPart>, seconds: u32, now: u64) -> Option<&ListedPart>
    ensures { option_copied result ≡ find (has_session (is_silent seconds now)) parts.now }
{
    parts.iter().find(|part| is_silent(part, seconds, now))
}

/// Returns whether the part's source, if its mount is live, has sent nothing in so many seconds.
fn is_silent(part: &ListedPart, seconds: u32, now: u64) -> bool
    ensures { result ≡ has_session (is_silent seconds now) part.now }
{
    match part.session() {
        Some(session) => lies_back(seconds, session.last_block, now),
        None => false,
    }
}

/// Returns the earliest moment at which a session of these parts is due; the last moment if no mount is
/// live.
fn earliest_due(parts: &Table<ListedPart>, seconds: u32) -> u64
    ensures { result ≡ fold (earlier_due seconds) last_moment parts.now }
{
    parts.iter().fold(LAST_MOMENT, |first, part| earlier_due(first, part, seconds))
}

/// Returns the moment at which the part's session is due, if its mount is live and that is earlier
/// than this moment; else this moment.
fn earlier_due(first: u64, part: &ListedPart, seconds: u32) -> u64
    ensures { result ≡ earlier_due seconds first part.now }
{
    match part.session() {
        Some(session) => first.min(due_at(seconds, session.last_block)),
        None => first,
    }
}
