//! Metadata blocks: a length byte n, and 16 n bytes of text and padding.
ghost use Rattle.std.specs.Prelude.{◌≡◌, ◌≤◌, ◌++◌, length, take, vec_len, Some, IfSome, OnOk, OnErr};
ghost use Rattle.std.specs.Option.{option_copied};
ghost use Rattle.radio_icy.specs.Block.{metadata_block};
ghost use Rattle.radio_values.specs.Limits.{max_title};

use crate::{MAX_TITLE, OutOfMemory};

/// The bytes that a length byte counts in.
pub const UNIT: usize = 16;

/// The bytes before the title in a block's text.
pub const BEFORE_TITLE: &[u8] = b"StreamTitle='";

/// The bytes after the title.
pub const AFTER_TITLE: &[u8] = b"';";

const PADDING: [u8; UNIT] = [0; UNIT];

/// Appends the block that carries these news to `out`; with none, one zero byte. After an `Err` what was in `out` is
/// still its front.
pub fn append_block(news: Option<&[u8]>, out: &mut Vec<u8>) -> Result<(), OutOfMemory>
    requires { IfSome news (λ t. length t.now ≤ max_title) }
    ensures ok { OnOk result (out.new.items ≡ out.old.items ++ metadata_block (option_copied news.entry)) }
    ensures err { OnErr result (take (vec_len out.old) out.new.items ≡ out.old.items) }
{
    match news {
        Some(title) => append_title_block(title, out),
        None => {
            out.push(0)?;
            Ok(())
        }
    }
}

fn append_title_block(title: &[u8], out: &mut Vec<u8>) -> Result<(), OutOfMemory>
    requires { length title.now ≤ max_title }
    ensures ok { OnOk result (out.new.items ≡ out.old.items ++ metadata_block (Some title.now)) }
    ensures err { OnErr result (take (vec_len out.old) out.new.items ≡ out.old.items) }
{
    let size = BEFORE_TITLE.len() + title.len() + AFTER_TITLE.len();
    let units = size.div_ceil(UNIT);
    out.push(units as u8)?;
    out.extend_from_slice(BEFORE_TITLE)?;
    out.extend_from_slice(title)?;
    out.extend_from_slice(AFTER_TITLE)?;
    out.extend_from_slice(&PADDING[..UNIT * units - size])?;
    Ok(())
}
