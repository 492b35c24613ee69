//! Laws: what the definitions say of every text, in the words of the format page.
//!
//! Each law is a function that does nothing, and its contract is the law.
//! A caller that needs a law in a proof calls the function, and cites its clause.
ghost use Rattle.std.specs.Prelude.{◌≡◌, ◌↔◌, ℕ, List, Ok, Err, Some, None, codes};
ghost use Rattle.radio_keys.specs.declared.fault.SettingsFault.{SettingsFault};
ghost use Rattle.radio_keys.specs.declared.fault.SettingsFault.TheVariants.{BadName, Missing, MountTwice, NotToml, OutOfRange, WrongKind};
ghost use Rattle.radio_keys.specs.declared.key.Key.TheVariants.{SourcePassword, Listen, Port, AllowOrigin, Mount, MountName};
ghost use Rattle.radio_settings_values.specs.declared.settings.Settings.{Settings};
ghost use Rattle.radio_settings.specs.Document.{reading_of};
ghost use Rattle.radio_settings_values.specs.Repeats.{first_repeat};
ghost use Rattle.radio_settings.specs.Laws.{AreDistinct, AreSettingsOf, IsFaultOfText, IsFirstRepeat};

/// A text has a fault exactly if it is not TOML, or if some row of its document has that fault and every row
/// before it is well. It has settings exactly if it is TOML and every row is well.
// rule: Reading settings
pub fn first_faults()
    ensures fault { (text : List ℕ) (fault : SettingsFault) → (reading_of text ≡ Err fault) ↔ IsFaultOfText text fault }
    ensures settings { (text : List ℕ) (settings : Settings) → (reading_of text ≡ Ok settings) ↔ AreSettingsOf text settings }
{}

/// The first repeat of some names is the first name that is also among those before it. There is none exactly if no
/// name is among those before it.
// rule: Repeated names
pub fn first_repeats()
    ensures found { (names : List (List ℕ)) (name : List ℕ) → (first_repeat names ≡ Some name) ↔ IsFirstRepeat names name }
    ensures apart { (names : List (List ℕ)) → (first_repeat names ≡ None) ↔ AreDistinct names }
{}

/// Some texts, with their settings or faults.
// rule: Reading settings
pub fn worked_texts()
    ensures empty { reading_of (codes "") ≡ Err (Missing SourcePassword) }
    ensures number { reading_of (codes "source-password = 1") ≡ Err (WrongKind SourcePassword) }
    ensures no_value { reading_of (codes "source-password") ≡ Err NotToml }
    ensures port { reading_of (codes "source-password = \"a\"\nadmin-password = \"b\"\n[listen]\nport = 70000") ≡ Err (OutOfRange Port) }
    ensures no_table { reading_of (codes "source-password = \"a\"\nadmin-password = \"b\"\nlisten = 2") ≡ Err (WrongKind Listen) }
    ensures no_list { reading_of (codes "source-password = \"a\"\nadmin-password = \"b\"\nmount = [1]") ≡ Err (WrongKind Mount) }
    ensures bad_name { reading_of (codes "source-password = \"a\"\nadmin-password = \"b\"\n[[mount]]\nmount-name = \"a\"") ≡ Err (BadName MountName) }
    ensures twice { reading_of
        (codes "source-password = \"a\"\nadmin-password = \"b\"\n[[mount]]\nmount-name = \"/a\"\n[[mount]]\nmount-name = \"/a\"")
        ≡ Err (MountTwice (codes "/a")) }
    ensures two_words { reading_of (codes "source-password = \"a\"\nadmin-password = \"b\"\n[web]\nallow-origin = \"a b\"") ≡ Err (OutOfRange AllowOrigin) }
    ensures at_the_page { reading_of
        (codes "source-password = \"a\"\nadmin-password = \"b\"\n[web]\npage = true\n[[mount]]\nmount-name = \"/\"")
        ≡ Err (BadName MountName) }
{}
