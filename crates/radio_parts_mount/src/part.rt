//! The part of one mount.

ghost use Rattle.std.specs.Prelude.{◌≡◌, [], None, find, OnOk, OnErr, IfOk};
ghost use Rattle.radio_attachments.specs.Rows.{is_attached};
ghost use Rattle.radio_parts_mount.specs.Attached.{place_in};
ghost use Rattle.radio_parts_mount.specs.Parts.{with_session_changed};
ghost use Rattle.radio_parts_mount.specs.Kept.{longer_kept};
ghost use Rattle.radio_parts_mount.specs.StatePart.{end_in};

use crate::{OutOfMemory, Session};
use radio_attachments::AttachmentTree;
use radio_blocks::Block;
use radio_values::MountName;

/// What belongs to one mount.
#[derive(Drop)]
pub struct MountPart {
    /// The mount.
    pub mount: MountName,
    /// What its source feeds, if it is live.
    pub session: Option<Session>,
    /// The listeners that are attached to it, each with the place up to which it has heard the
    /// mount's stream.
    pub attachments: AttachmentTree,
    /// The listeners that were attached, and lagged out by an own step of the part, until they are
    /// taken.
    pub lagged: AttachmentTree,
}

impl MountPart {
    /// Returns the part of a mount that is not live, and to which nobody is attached. It takes no
    /// memory.
    pub fn new(mount: MountName) -> MountPart
        ensures { result ≡ record { mount = mount; session = None; attachments = []; lagged = [] } }
    {
        MountPart {
            mount,
            session: None,
            attachments: AttachmentTree::new(),
            lagged: AttachmentTree::new(),
        }
    }

    /// Returns the place up to which the listener has heard the mount's stream, if it is attached
    /// here.
    pub fn place(&self, id: u64) -> Option<u64>
        ensures { result ≡ place_in (find (is_attached id) self.now.attachments) }
    {
        match self.attachments.get(id) {
            Some(attachment) => Some(attachment.place),
            None => None,
        }
    }

    /// Adds a block to the stream of the mount's session, if it is live, and returns where the stream
    /// ends then, in bytes; 0 if it is not live. The last blocks are kept, so many bytes or more.
    /// `OutOfMemory` if memory was refused; nothing has changed then.
    pub fn receive(&mut self, block: &Block, moment: u64, limit: u64) -> Result<u64, OutOfMemory>
        ensures ok { OnOk result (self.new ≡ with_session_changed (longer_kept limit block.now moment) self.old) }
        ensures end { IfOk result (λ end. end ≡ end_in self.new.session) }
        ensures err { OnErr result (self.new ≡ self.old) }
    {
        let Some(session) = &mut self.session else {
            return Ok(0);
        };
        let block = block.share()?;
        session.stream.push(block, limit)?;
        session.last_block = moment;
        Ok(session.stream.end())
    }
}
