//! Names of mounts.
ghost use Rattle.std.specs.Prelude.{◌≡◌, ℕ, ◌+◌, ◌-◌, ◌≤◌, ◌++◌, length, replicate, true, false, MatchOption};
ghost use Rattle.std.specs.Cmp.Lexicographic.{slice_cmp};
ghost use Rattle.std.specs.List.{list_all};
ghost use Rattle.std.specs.Ordering.{nat_cmp, as_partial_cmp};
ghost use Rattle.std.specs.Str.{bytes_eq, is_utf8, IsUtf8};
ghost use Rattle.std.proofs.Common.{rules};
ghost use Rattle.std.specs.Cmp.{partial_order_from_own_ties};
ghost use Rattle.std.specs.Cmp.Rules.{comparing};
ghost use Rattle.radio_values.specs.MountName.{is_mount_name, is_name_byte, has_reserved_path};

use std::cmp::Ordering;
use std::fmt;
use std::marker::Model;

/// The largest number of bytes in the name of a mount.
pub const MAX_MOUNT_NAME: usize = 255;

/// The name of a mount: UTF-8 of 1 to 255 bytes that begins with `/`, with no byte below 32 and no 127. What lies under
/// `/admin/`, and `/status.json`, are the server's own paths and name no mount.
///
/// Its bytes are kept in place, so that a copy takes no memory. Names are equal if their bytes are, and ordered by
/// their bytes.
#[derive(Clone, Copy)]
pub struct MountName {
    len: u8,
    bytes: [u8; MAX_MOUNT_NAME],
}

impl Model for MountName {
    ghost use Rattle.std.specs.Prelude.{◌≡◌, ℕ, ◌-◌, ◌≤◌, ◌++◌, List, length, take, replicate};
    ghost use Rattle.std.specs.Coded.{coded_ℕ, coded_list};

    ghost Value = { List ℕ };

    ghost coded = { coded_list coded_ℕ };

    ghost use Rattle.radio_values.specs.MountName.{HoldsName};
    ghost use Rattle.radio_values.specs.MountNameInside.{inverse_of_view};

    ghost view = { λ n. take n.len n.bytes };

    ghost invariant = { λ n. HoldsName n.len n.bytes };

    ghost inverse = { λ name. record { len = length name; bytes = name ++ replicate (255 - length name) 0 } };

    ghost inverse_ok = { inverse_of_view };
}

impl MountName {
    /// The name of these bytes; `None` if they name no mount.
    // rule: Name of a mount
    #[tactic(auto, unfolding(crate::specs::MountName::is_mount_name))]
    pub fn read(bytes: &[u8]) -> Option<MountName>
        // There is one exactly if the bytes name a mount, and it has these bytes.
        ensures { MatchOption result (is_mount_name bytes.now ≡ false) (λ name. (is_mount_name bytes.now ≡ true) × (name ≡ bytes.now)) }
    {
        if bytes.len() > MAX_MOUNT_NAME || !is_valid(bytes) {
            return None;
        }
        Some(MountName {
            len: bytes.len() as u8,
            bytes: padded(bytes),
        })
    }

    /// Its bytes.
    pub fn as_bytes(&self) -> &[u8]
        ensures bytes { result.now ≡ self.now }
        ensures name { is_mount_name self.now ≡ true }
        ensures utf8 { IsUtf8 self.now }
    {
        &self.bytes[..self.len as usize]
    }

    /// Its text.
    pub fn as_str(&self) -> &str
        ensures { result.now ≡ self.now }
    {
        str::from_utf8(self.as_bytes()).unwrap()
    }
}

impl PartialEq for MountName {
    ghost eq = { bytes_eq };

    ghost laws = { Prim.search (comparing, rules) };

    fn eq(&self, other: &MountName) -> bool {
        self.as_bytes() == other.as_bytes()
    }
}

impl Eq for MountName {
    ghost laws = { Prim.search (comparing, rules) };
}

impl Ord for MountName {
    ghost cmp = { slice_cmp nat_cmp };

    ghost total = { Prim.search (comparing, rules) };

    ghost matches_partial_cmp = { Prim.search (comparing, rules) };

    ghost matches_eq = { Prim.search (comparing, rules) };

    // rule: Name of a mount
    fn cmp(&self, other: &MountName) -> Ordering {
        // most look-ups end at an equal name, and that names are equal is found sooner than their order
        if self == other {
            return Ordering::Equal;
        }
        self.as_bytes().cmp(other.as_bytes())
    }
}

impl PartialOrd for MountName {
    ghost partial_cmp = { as_partial_cmp (slice_cmp nat_cmp) };

    ghost laws = { partial_order_from_own_ties (Prim.search (comparing, rules)) (Prim.search (comparing, rules)) };

    fn partial_cmp(&self, other: &MountName) -> Option<Ordering> {
        Some(self.cmp(other))
    }
}

impl fmt::Debug for MountName {
    fn fmt<W: fmt::Write>(&self, f: &mut fmt::Formatter<W>) -> fmt::Result {
        fmt::Debug::fmt(self.as_str(), f)
    }
}

impl fmt::Display for MountName {
    ghost use Rattle.std.specs.Prelude.{Some};

    ghost output = { λ name. Some name };

    fn fmt<W: fmt::Write>(&self, f: &mut fmt::Formatter<W>) -> fmt::Result {
        f.write_str(self.as_str())
    }
}

/// The bytes, and zeros behind them.
#[tactic(auto, using(crate::proofs::NameLemmas::padded_more, crate::proofs::NameLemmas::padded_all))]
fn padded(bytes: &[u8]) -> [u8; MAX_MOUNT_NAME]
    requires { length bytes.now ≤ 255 }
    ensures { result ≡ bytes.now ++ replicate (255 - length bytes.now) 0 }
{
    let mut all = [0; MAX_MOUNT_NAME];
    for (i, byte) in bytes.iter().enumerate() {
        all[i] = *byte;
    }
    all
}

/// Whether the bytes name a mount, for at most 255 of them.
#[tactic(auto, unfolding(crate::specs::MountName::is_mount_name))]
fn is_valid(bytes: &[u8]) -> bool
    requires { length bytes.now ≤ 255 }
    ensures { result ≡ is_mount_name bytes.now }
{
    bytes.starts_with(b"/") && is_text(bytes) && has_name_bytes(bytes) && !is_reserved(bytes)
}

/// Whether the bytes are UTF-8.
fn is_text(bytes: &[u8]) -> bool
    ensures { result ≡ is_utf8 bytes.now }
{
    match str::from_utf8(bytes) {
        Ok(_) => true,
        Err(_) => false,
    }
}

fn has_name_bytes(bytes: &[u8]) -> bool
    ensures { result ≡ list_all is_name_byte bytes.now }
{
    bytes.iter().all(|b| *b >= 32 && *b != 127)
}

/// Whether the path is one of the server's own.
fn is_reserved(bytes: &[u8]) -> bool
    ensures { result ≡ has_reserved_path bytes.now }
{
    bytes.starts_with(b"/admin/") || bytes == b"/status.json".as_slice()
}
