//! What the settings say of answers, and of commands that browsers give.

ghost use Rattle.std.specs.Prelude.{◌≡◌, ◌&&◌, not, false};
ghost use Rattle.std.specs.List.{list_any};
ghost use Rattle.radio_answers.specs.WebAnswers.{has_media_name, is_media, no_web, parts_types};

use radio_events::MomentText;
use radio_heads::Additions;

/// What the table `[web]` of the settings says of a connection's requests and answers.
#[derive(Clone, Copy, PartialEq, Eq)]
pub struct WebAnswers {
    /// `browser-commands`: a command that the page of another site may have sent is given with its pair, too.
    pub browser_commands: bool,
    /// `cache-control`: each answer says that no cache may keep it.
    pub cache_control: bool,
    /// There is such a table, so browsers are expected: a stream that is no media is answered so that none runs it.
    pub sandbox: bool,
    /// `icecast-heads`: the head of a stream has what else the stream says of itself, as Icecast's heads do.
    pub icecast_heads: bool,
    /// When the server started, for the pages that say so; `None` if none does.
    pub server_start: Option<MomentText>,
}

impl WebAnswers {
    /// What holds without a table `[web]`.
    pub fn none() -> WebAnswers
        ensures { result ≡ no_web }
    {
        WebAnswers {
            browser_commands: false,
            cache_control: false,
            sandbox: false,
            icecast_heads: false,
            server_start: None,
        }
    }

    /// The headers that each answer has in addition.
    pub(crate) fn additions(self) -> Additions
        ensures caching { result.forbids_caching ≡ self.cache_control }
        ensures sandbox { result.is_sandboxed ≡ false }
    {
        Additions {
            forbids_caching: self.cache_control,
            is_sandboxed: false,
        }
    }

    /// Those of the head of a stream of this type.
    pub(crate) fn stream_additions(self, content_type: &[u8]) -> Additions
        ensures caching { result.forbids_caching ≡ self.cache_control }
        ensures sandbox { result.is_sandboxed ≡ self.sandbox && not (is_media content_type.now) }
    {
        Additions {
            forbids_caching: self.cache_control,
            is_sandboxed: self.sandbox && !is_media(content_type),
        }
    }
}

/// Whether a browser runs nothing of this type: it is sound, pictures or bare bytes.
fn is_media(content_type: &[u8]) -> bool
    ensures { result ≡ is_media content_type.now }
{
    has_media_name(content_type) && !parts_types(content_type)
}

fn has_media_name(content_type: &[u8]) -> bool
    ensures { result ≡ has_media_name content_type.now }
{
    content_type.starts_with(b"audio/")
        || content_type.starts_with(b"video/")
        || content_type == b"application/octet-stream".as_slice()
}

fn parts_types(content_type: &[u8]) -> bool
    ensures { result ≡ list_any parts_types content_type.now }
{
    content_type
        .iter()
        .any(|byte| *byte == b',' || *byte == b'+')
}
