//! A law: what is true of every cleaned text, by the definition that the calls cite.
//!
//! It is a function that does nothing, and its contract is the law. A caller that needs it in a proof calls the function,
//! and cites its clause.
ghost use Rattle.std.specs.Prelude.{◌≡◌, ℕ, ◌≤◌, List, length, take, true, encode_utf8_all};
ghost use Rattle.std.specs.List.{list_all};
ghost use Rattle.std.specs.Str.{IsUtf8, chars};
ghost use Rattle.radio_values.specs.Cleaning.{cleaned, shown_chars, is_shown};

/// A cleaned text is UTF-8 of at most n bytes, and is left as it is by cleaning. Its characters are the longest front
/// of those that may be shown which fits n bytes: no longer front of them does. No byte of it is below 32, and none
/// is 127.
// rule: Cleaned texts
pub fn clean_texts()
    ensures text { (n : ℕ) (bytes : List ℕ) → IsUtf8 (cleaned n bytes) }
    ensures fits { (n : ℕ) (bytes : List ℕ) → length (cleaned n bytes) ≤ n }
    ensures again { (n : ℕ) (bytes : List ℕ) → cleaned n (cleaned n bytes) ≡ cleaned n bytes }

    ensures shown { (n : ℕ) (bytes : List ℕ) → list_all is_shown (chars (cleaned n bytes)) ≡ true }
    ensures bytes { (n : ℕ) (bytes : List ℕ) → list_all is_shown (cleaned n bytes) ≡ true }
    ensures front { (n : ℕ) (bytes : List ℕ)
        → take (length (chars (cleaned n bytes))) (shown_chars bytes) ≡ chars (cleaned n bytes) }
    ensures longest { (n : ℕ) (bytes : List ℕ) (k : ℕ)
        → length (encode_utf8_all (take k (shown_chars bytes))) ≤ n
        → take k (chars (cleaned n bytes)) ≡ take k (shown_chars bytes) }
{}
