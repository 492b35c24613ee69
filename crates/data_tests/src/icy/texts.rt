//! Texts of blocks, from which the server takes no titles yet, and texts that are cleaned. More of the latter are in the
//! end-to-end scripts.

use super::OutOfMemory;
use radio_icy::{clean_field, clean_title, title_of};

/// Texts of blocks, and their titles.
const TITLES: &[(&[u8], Option<&[u8]>)] = &[
    (b"StreamTitle='X';", Some(b"X")),
    (b"StreamTitle='a';b';", Some(b"a';b")),
    (b"StreamTitle='a';StreamUrl='u';", Some(b"a")),
    (b"StreamTitle='';", Some(b"")),
    (b"StreamTitle='it's';", Some(b"it's")),
    (b"StreamTitle='a'", None),
    (b"StreamUrl='u';", None),
    (b"streamtitle='a';", None),
    (b"", None),
];

// rule: Title of a block
#[test]
fn titles_in_texts(rt: HostRuntime) {
    for (text, want) in TITLES {
        assert!(rt; title_of(text) == *want, "{text:?}");
    }
}

/// Whether a text was cleaned, and is this one.
fn is_clean(cleaned: Result<String, OutOfMemory>, want: &str) -> bool {
    match cleaned {
        Ok(text) => text.as_str() == want,
        Err(_) => false,
    }
}

/// A text with two control characters, and a byte that is no text.
const UNCLEAN: &[u8] = b"a\x1fb\xffc\x7f";

#[test]
fn cleaned_texts(rt: HostRuntime) {
    let alloc = rt.alloc();
    assert!(rt; is_clean(clean_title(alloc, UNCLEAN), "ab\u{fffd}c"));
    assert!(rt; is_clean(clean_field(alloc, UNCLEAN), "ab\u{fffd}c"));
}
