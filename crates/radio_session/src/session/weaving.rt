//! A listener's data, with metadata between them (ICY convention).

ghost use Rattle.std.specs.Prelude.{◌≡◌, ◌≤◌, ◌++◌, length, option_copied, IfSome, OnOk, OnErr};
ghost use Rattle.std.specs.List.{concat};
ghost use Rattle.radio_icy.specs.Weaving.{woven, after_weaving};
ghost use Rattle.radio_values.specs.Limits.{max_title};
ghost use Rattle.radio_session.specs.Draws.{draw, drawn, after_draw, weaver_at};

use crate::OutOfMemory;
use bytes::Bytes;
use radio_answers::metadata_interval;
use radio_blocks::Pieces;
use radio_icy::Weaver;
use radio_icy::laws::joined_weaving;
use radio_values::Title;
use std::alloc::Global;

/// Returns the weaver of a listener with this interval. `None` if the listener gets no metadata.
pub(super) fn weaver_at(alloc: Global, interval: Option<u32>) -> Option<Weaver>
    ensures { result ≡ weaver_at interval }
{
    let interval = metadata_interval(interval)?;
    Some(Weaver::new(alloc, interval as usize))
}

/// Returns the bytes of a title, if there is one.
pub(super) fn text_of(title: &Option<Title>) -> Option<&[u8]>
    ensures text { option_copied result ≡ title.now }
    ensures fits { IfSome result (λ text. length text.now ≤ max_title) }
{
    match title {
        Some(title) => Some(title.as_slice()),
        None => None,
    }
}

/// Appends data that were drawn while their mount had this title, with the metadata blocks that are due
/// between them. `OutOfMemory` if memory was refused; then nothing was appended.
pub(super) fn tell_draw(
    weaver: &mut Option<Weaver>,
    pieces: &Pieces,
    title: Option<&[u8]>,
    out: &mut Vec<u8>,
) -> Result<(), OutOfMemory>
    requires { IfSome title (λ text. length text.now ≤ max_title) }
    ensures bytes { OnOk result (out.new.items ≡ out.old.items ++ drawn weaver.old (draw pieces.now (option_copied title.entry))) }
    ensures after { OnOk result (weaver.new ≡ after_draw weaver.old (draw pieces.now (option_copied title.entry))) }
    ensures silent { OnErr result (out.new.items ≡ out.old.items) }
{
    match weaver {
        Some(weaver) => weave_slices(weaver, pieces.slices(), title, out),
        None => pieces.write_to(out),
    }
}

fn weave_slices(
    weaver: &mut Weaver,
    slices: &[Bytes],
    title: Option<&[u8]>,
    out: &mut Vec<u8>,
) -> Result<(), OutOfMemory>
    requires { IfSome title (λ text. length text.now ≤ max_title) }
    ensures bytes { OnOk result (out.new.items ≡ out.old.items ++ woven weaver.old (option_copied title.entry) (concat slices.now)) }
    ensures after { OnOk result (weaver.new ≡ after_weaving weaver.old (option_copied title.entry) (concat slices.now)) }
    ensures silent { OnErr result (out.new.items ≡ out.old.items) }
{
    joined_weaving();
    let before = out.len();
    for slice in slices {
        if let Err(refused) = weaver.weave(slice.as_slice(), title, out) {
            out.truncate(before);
            return Err(refused);
        }
    }
    Ok(())
}
