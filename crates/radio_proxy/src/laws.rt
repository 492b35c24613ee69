//! Laws: what holds of all headers, in words of their own.
//!
//! Each law is a function that does nothing, and its contract is the law. A caller that needs a law in a proof calls the
//! function, and cites its clause.

ghost use Rattle.std.specs.Prelude.{◌≡◌, ◌≢◌, ◌↔◌, ◌++◌, ℕ, List, Some};
ghost use Rattle.radio_proxy.specs.Headers.{header_of, named_in};
ghost use Rattle.radio_proxy.specs.Laws.{IsHeader, Names};
ghost use Rattle.radio_proxy.specs.declared.header.Header.TheVariants.{Partial, Whole, Bad};
ghost use Rattle.radio_proxy.specs.declared.header.NamedClient.{NamedClient};

/// What is decided by some bytes stays decided, whatever follows: so it does not matter how a header is cut.
// rule: Proxy header
pub fn headers_come_in_any_pieces()
    ensures { (bytes more : List ℕ) → header_of bytes ≢ Partial → header_of (bytes ++ more) ≡ header_of bytes }
{}

/// Bytes begin with a header of so many bytes that names somebody exactly if there is such a line.
// rule: Proxy header
pub fn headers_are_lines()
    ensures { (bytes : List ℕ) (len : ℕ) (named : NamedClient) → (header_of bytes ≡ Whole len named) ↔ IsHeader bytes len named }
{}

/// Bytes are found bad only if no header begins with them, whatever follows.
// rule: Proxy header
pub fn bad_headers_are_none()
    ensures { (bytes more : List ℕ) (len : ℕ) (named : NamedClient) → header_of bytes ≡ Bad → ¬ IsHeader (bytes ++ more) len named }
{}

/// A line names somebody exactly as the protocol says, field by field.
// rule: Proxy header
pub fn lines_name_clients()
    ensures { (line : List ℕ) (named : NamedClient) → (named_in line ≡ Some named) ↔ Names line named }
{}
