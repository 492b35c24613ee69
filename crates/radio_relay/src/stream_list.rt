//! Lists of a master's streams.
ghost use Rattle.std.specs.Prelude.{◌≡◌, IfOk, OnOk};
ghost use Rattle.radio_relay.specs.StreamList.{names_listed, with_name};

use crate::OutOfMemory;
use radio_texts::laws::fields;
use radio_texts::{cut, without_return};
use radio_values::MountName;
use std::alloc::Global;
use std::collections::BTreeSet;

/// The mounts in a master's list of streams: the lines that name one, each name once, in the order of their bytes.
///
/// A line ends with LF or CR LF; the last one may lack it. Other lines are passed over. `OutOfMemory` if memory was
/// refused.
// rule: List of a slave
pub fn read_stream_list(alloc: Global, text: &[u8]) -> Result<BTreeSet<MountName>, OutOfMemory>
    ensures { IfOk result (λ names. names.keys ≡ names_listed text.now) }
{
    let mut names = BTreeSet::new(alloc);
    let mut rest = text;
    fields();
    'lines: while let Some((line, after)) = cut(rest, b'\n') {
        add_name(&mut names, without_return(line))?;
        rest = after;
    }
    add_name(&mut names, without_return(rest))?;
    Ok(names)
}

/// Adds the name that a line is, if it is one.
fn add_name(names: &mut BTreeSet<MountName>, line: &[u8]) -> Result<(), OutOfMemory>
    ensures { OnOk result (names.new.keys ≡ with_name names.old.keys line.now) }
{
    if let Some(name) = MountName::read(line) {
        names.insert(name)?;
    }
    Ok(())
}
