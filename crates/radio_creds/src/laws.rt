//! Laws: what the definitions say of every value and every user list, in the words of the standard and of the format.
//!
//! Each law is a function that does nothing, and its contract is the law.
//! A caller that needs a law in a proof calls the function, and cites its clause.
ghost use Rattle.std.specs.Prelude.{◌≡◌, ◌↔◌, List, ℕ, Some};
ghost use Rattle.std.specs.FinMap as finite;
ghost use Rattle.radio_creds.specs.UserLine.{IsUserLine, user_line};
ghost use Rattle.radio_creds.specs.UserList.{IsFirstOf, has_line_of, has_user, user_lines, users_of};

use radio_texts::laws::cuts;

/// A line has a user and a digest exactly if it is `user:digest` by the format.
// rule: User list
pub fn lines_of_users()
    ensures { (line user digest : List ℕ)
        → (user_line line ≡ Some (user, digest)) ↔ IsUserLine line user digest }
{
    cuts();
}

/// A user list has the digest of the first well-formed line of a user, and the users of all its well-formed lines.
// rule: User list
pub fn first_lines_count()
    ensures digest { (text user digest : List ℕ)
        → (finite.get (users_of text) user ≡ Some digest) ↔ IsFirstOf (user_lines text) user digest }
    ensures user { (text user : List ℕ) → has_user (users_of text) user ≡ has_line_of user (user_lines text) }
{}
