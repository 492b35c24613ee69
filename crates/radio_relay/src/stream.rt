//! The stream behind the head of a master's answer.
ghost use Rattle.std.specs.Prelude.{◌≡◌, ◌≤◌, OnOk, IfSome};
ghost use Rattle.radio_relay.specs.Items.{with_parts};
ghost use Rattle.radio_relay.specs.Pulled.{stream_with, stream_parts, after_bytes};

use crate::OutOfMemory;
use crate::items::PulledItems;
use radio_icy::Unweaver;
use std::alloc::Global;

/// A stream as it is sent.
#[derive(Drop)]
pub(crate) enum PulledStream {
    /// All that comes is sound.
    Plain,
    /// Metadata blocks are between the sound.
    Woven(Unweaver),
}

impl PulledStream {
    /// A stream at its start, with a metadata block after each interval, if there is one.
    pub(crate) fn new(alloc: Global, interval: Option<usize>) -> PulledStream
        requires { IfSome interval (λ n. 1 ≤ n) }
        ensures { result ≡ stream_with interval }
    {
        match interval {
            Some(bytes) => PulledStream::Woven(Unweaver::new(alloc, bytes)),
            None => PulledStream::Plain,
        }
    }

    /// Adds what the next bytes bring. `OutOfMemory` if memory was refused; the stream and the items are of no use
    /// then.
    pub(crate) fn read(&mut self, bytes: &[u8], items: &mut PulledItems) -> Result<(), OutOfMemory>
        ensures items { OnOk result (items.new ≡ with_parts items.old (stream_parts self.old bytes.now)) }
        ensures after { OnOk result (self.new ≡ after_bytes self.old bytes.now) }
    {
        match self {
            PulledStream::Plain => items.add_sound(bytes),
            PulledStream::Woven(reader) => items.add_heard(reader.feed(bytes)?),
        }
    }
}
