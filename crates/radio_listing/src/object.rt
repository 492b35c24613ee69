//! Objects of JSON, made member by member.
ghost use Rattle.std.specs.Prelude.{◌≡◌, [], unwrap_or, IfOk, OnOk};
ghost use Rattle.serde_json.specs.Data.{boolean, object, no_members, member, put as with_member};
ghost use Rattle.serde_json.specs.View.{view};
ghost use Rattle.radio_listing.specs.Icecast.{with_text};
ghost use Rattle.radio_listing.specs.Json.{text, count};
ghost use Rattle.radio_listing.specs.Objects.{members_in};
ghost use Rattle.radio_listing.specs.Public.{with_public};

use crate::{ListedText, OutOfMemory, PublicRow};
use serde_json::{Map, Value};
use std::alloc::Global;

/// An object of JSON, in contracts its members in the order of their names (`members_in`).
#[derive(Drop)]
pub(crate) struct Object {
    pub(crate) alloc: Global,
    pub(crate) members: Map<String, Value>,
}

impl Object {
    /// No members. It takes no memory.
    pub(crate) fn new(alloc: Global) -> Object
        ensures { members_in result ≡ no_members }
    {
        Object {
            alloc,
            members: Map::new(alloc),
        }
    }

    /// Puts a member into its place, as the next ones do. `OutOfMemory` if memory was refused;
    /// nothing has changed then.
    pub(crate) fn put(&mut self, name: &str, value: Value) -> Result<(), OutOfMemory>
        ensures { OnOk result (members_in self.new ≡ with_member name.now (view value) (members_in self.old)) }
    {
        serde_json::put(&mut self.members, self.alloc, name, value)
    }

    /// A text, with U+FFFD for what is not UTF-8.
    pub(crate) fn put_text(&mut self, name: &str, shown: &ListedText<'_>) -> Result<(), OutOfMemory>
        ensures { OnOk result (members_in self.new ≡ with_member name.now (text shown.now) (members_in self.old)) }
    {
        let shown = shown.shown(self.alloc)?;
        self.put(name, Value::String(shown))
    }

    /// A text, or nothing if it is empty.
    pub(crate) fn put_text_if_any(
        &mut self,
        name: &str,
        shown: &ListedText<'_>,
    ) -> Result<(), OutOfMemory>
        ensures { OnOk result (members_in self.new ≡ with_text name.now shown.now (members_in self.old)) }
    {
        if shown.as_bytes().is_empty() {
            return Ok(());
        }
        self.put_text(name, shown)
    }

    /// A text, the empty one if there is none.
    pub(crate) fn put_text_or_empty(
        &mut self,
        name: &str,
        shown: &Option<ListedText<'_>>,
    ) -> Result<(), OutOfMemory>
        ensures { OnOk result (members_in self.new ≡ with_member name.now (text (unwrap_or shown.now [])) (members_in self.old)) }
    {
        match shown {
            Some(shown) => self.put_text(name, shown),
            None => self.put_text(name, &ListedText::of(b"")),
        }
    }

    /// A number.
    pub(crate) fn put_count(&mut self, name: &str, number: u64) -> Result<(), OutOfMemory>
        ensures { OnOk result (members_in self.new ≡ with_member name.now (count number) (members_in self.old)) }
    {
        self.put(name, Value::from(number))
    }

    /// `true` or `false`.
    pub(crate) fn put_flag(&mut self, name: &str, flag: bool) -> Result<(), OutOfMemory>
        ensures { OnOk result (members_in self.new ≡ with_member name.now (boolean flag) (members_in self.old)) }
    {
        self.put(name, Value::Bool(flag))
    }

    /// What everybody may see of a mount.
    pub(crate) fn put_public(&mut self, row: &PublicRow<'_>) -> Result<(), OutOfMemory>
        ensures { OnOk result (members_in self.new ≡ with_public row.now (members_in self.old)) }
    {
        self.put_text("genre", &row.genre)?;
        self.put_count("listeners", row.listeners)?;
        self.put_text("mount", &row.mount)?;
        self.put_text("name", &row.name)?;
        self.put_text("title", &row.title)?;
        self.put_text("type", &row.content_type)
    }

    /// The object as a value.
    pub(crate) fn into_value(self) -> Value
        ensures { view result ≡ object (members_in self) }
    {
        Value::Object(self.members)
    }
}

/// An object with this member alone. `OutOfMemory` if memory was refused.
pub(crate) fn one_member(alloc: Global, name: &str, value: Value) -> Result<Value, OutOfMemory>
    ensures { IfOk result (λ made. view made ≡ object (member name.now (view value) no_members)) }
{
    let mut made = Object::new(alloc);
    made.put(name, value)?;
    Ok(made.into_value())
}
