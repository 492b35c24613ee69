//! Secrets: digests of passwords, and how secrets are compared.
ghost use Rattle.std.specs.Prelude.{◌≡◌, ◌↔◌, IsTrue};
ghost use Rattle.radio_creds.specs.UserLine.{digest_written};

use hex::FromHex;
use md5::DIGEST_LEN;

/// The 16 bytes of an MD5 digest (RFC 1321).
pub(crate) type PasswordDigest = [u8; DIGEST_LEN];

/// The digest that 32 hexadecimal digits write, in either case. `None` for any other text.
pub(crate) fn read_digest(digits: &[u8]) -> Option<PasswordDigest>
    ensures { result ≡ digest_written digits.now }
{
    <PasswordDigest as FromHex>::from_hex(digits).ok()
}

/// Whether two secrets, as passwords or digests, are the same.
///
/// All bytes are compared, so the number of steps is the same wherever two secrets of one length differ.
// rule: Authorization
pub fn is_same_secret(a: &[u8], b: &[u8]) -> bool
    ensures { IsTrue result ↔ (a.now ≡ b.now) }
{
    if a.len() != b.len() {
        return false;
    }
    let mut is_same = true;
    for i in 0..a.len() {
        is_same &= a[i] == b[i];
    }
    is_same
}
