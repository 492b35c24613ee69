//! What listings are written from.

use crate::ListedText;
use radio_addr::Peer;

/// What everybody may see of a live mount.
#[derive(Drop)]
pub struct PublicRow<'a> {
    /// The name of the mount.
    pub mount: ListedText<'a>,
    /// The stream's name, empty where it has none.
    pub name: ListedText<'a>,
    /// The stream's genre, empty where it has none.
    pub genre: ListedText<'a>,
    /// The stream's media type.
    pub content_type: ListedText<'a>,
    /// The title that plays, empty if there is none.
    pub title: ListedText<'a>,
    /// How many listen at the mount.
    pub listeners: u64,
    /// What else the stream says of itself.
    pub about: AboutRow<'a>,
}

/// What a stream says of itself beyond its name and genre. Each is empty if it does not say it.
#[derive(Drop)]
pub struct AboutRow<'a> {
    /// The description.
    pub description: ListedText<'a>,
    /// The URL of the station's web site.
    pub url: ListedText<'a>,
    /// The bit rate in kbit/s.
    pub bitrate: ListedText<'a>,
    /// The parameters of the audio.
    pub audio_info: ListedText<'a>,
}

/// A live mount.
#[derive(Drop)]
pub struct MountRow<'a> {
    /// What everybody may see of it, unless it is hidden.
    pub public: PublicRow<'a>,
    /// Whether it is left out of what everybody and relays see.
    pub hidden: bool,
    /// The number of the session that feeds it.
    pub session: u64,
    /// The mount that its listeners fall back to; `None` if there is none.
    pub fallback: Option<ListedText<'a>>,
}

/// A listener at a mount.
#[derive(Drop)]
pub struct ListedListener<'a> {
    /// The mount that it asked for.
    pub home: ListedText<'a>,
    /// Its number.
    pub id: u64,
    /// The address that it listens from.
    pub peer: Peer,
    /// How many whole seconds it has sat.
    pub seconds: u64,
    /// The user of the pair that it sent; `None` if it sent none.
    pub user: Option<ListedText<'a>>,
}

/// The server, as it describes itself.
#[derive(Drop)]
pub struct ListedServer<'a> {
    /// The name of the program.
    pub name: ListedText<'a>,
    /// What comes before a mount's name in its URL, as `http://radio.example:8000`.
    pub base_url: ListedText<'a>,
    /// When it started (ISO 8601); empty if nobody may know it.
    pub start: ListedText<'a>,
}
