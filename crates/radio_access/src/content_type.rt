//! Content types that the server does not carry.
ghost use Rattle.std.specs.Prelude.{◌≡◌, true, false};
ghost use Rattle.std.specs.List.{list_any};
ghost use Rattle.radio_tables.specs.Lists.{Each};
ghost use Rattle.radio_access.specs.ContentTypes.{media_type, is_same_type, is_refused_type};
ghost use Rattle.radio_access.specs.TypeExamples.{refused_examples, carried_examples};

use radio_texts::{cut, without_blanks};

/// The types of containers that cannot be carried as plain bytes to whoever joins later: Ogg, WebM and Matroska.
const REFUSED_TYPES: &[&[u8]] = &[
    b"application/ogg",
    b"application/x-ogg",
    b"audio/ogg",
    b"video/ogg",
    b"audio/webm",
    b"video/webm",
    b"audio/x-matroska",
    b"video/x-matroska",
    b"video/x-matroska-3d",
];

/// Whether a content type is refused: what is before its first `;`, without blanks at its ends, is one of the
/// refused types in any ASCII case (RFC 9110, section 8.3.1).
// rule: Content type
pub fn is_refused_type(content_type: &[u8]) -> bool
    ensures { result ≡ is_refused_type content_type.now }
{
    is_one_of(REFUSED_TYPES, media_type(content_type))
}

/// Whether a type is one of these.
fn is_one_of(types: &[&[u8]], media: &[u8]) -> bool
    ensures { result ≡ list_any (λ named. is_same_type named.now media.now) types.now }
{
    types.iter().any(|named| is_same_type(named, media))
}

/// The type and the subtype of a content type, without its parameters.
fn media_type(content_type: &[u8]) -> &[u8]
    ensures { result.now ≡ media_type content_type.now }
{
    match cut(content_type, b';') {
        Some((front, _)) => without_blanks(front),
        None => without_blanks(content_type),
    }
}

/// Whether two types are the same, ASCII case disregarded.
fn is_same_type(a: &[u8], b: &[u8]) -> bool
    ensures { result ≡ is_same_type a.now b.now }
{
    a.eq_ignore_ascii_case(b)
}

/// Which content types are refused, by name.
// rule: Content type
pub fn refused_types_are_named()
    // Ogg, WebM and Matroska, in any ASCII case, with or without parameters and blanks
    ensures refused { Each (λ type. is_refused_type type ≡ true) refused_examples }
    // and no other: what players take as plain bytes is carried
    ensures carried { Each (λ type. is_refused_type type ≡ false) carried_examples }
{}
