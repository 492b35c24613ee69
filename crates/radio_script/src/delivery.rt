//! Reads the lines of a script: each is a delivery. Read [`read_delivery`] first.

ghost use Rattle.std.specs.Prelude.{◌≡◌, IfOk};
ghost use Rattle.radio_script.specs.Delivery.{clock_of, decimal_of, delivery_of, delivery_of_fields, end_delivery, in_of, label_of, open_of, other_fields_of, pull_of, room_of, text_fields, title_delivery};

use crate::OutOfMemory;
use crate::escapes::unescape;
use bytes::Bytes;
use radio_addr::{Peer, read_peer};
use radio_texts::{cut, read_number};
use std::alloc::Global;

/// What arrives on an open connection.
#[derive(Drop)]
pub enum Input {
    /// These bytes arrive.
    Data(Bytes),
    /// The connection has room for this many bytes of data.
    Room(u32),
    /// The connection's source names the title that plays.
    Title(Bytes),
    /// The peer closes the connection.
    End,
}

/// One line of a script. A label, from 1 on, names a connection.
#[derive(Drop)]
pub enum Delivery {
    /// The connection arrives.
    Open { label: u32, peer: Peer },
    /// The relay of this local mount connects to its master. The connection is its pull.
    Pull { label: u32, mount: Bytes },
    /// Something arrives on an open connection.
    To { label: u32, input: Input },
    /// The clock shows this many milliseconds since the server's start.
    Clock { ms: u64 },
}

/// Returns the delivery that a line of a script means, or `None` if it means none. The line has no
/// line feed. `OutOfMemory` if memory was refused.
#[tactic(auto, unfolding(crate::specs::Delivery::delivery_of))]
pub fn read_delivery(alloc: Global, line: &[u8]) -> Result<Option<Delivery>, OutOfMemory>
    ensures { IfOk result (λ delivery. delivery ≡ delivery_of line.now) }
{
    match cut(line, b' ') {
        Some((word, fields)) => read_fields(alloc, word, fields),
        None => Ok(None),
    }
}

fn read_fields(alloc: Global, word: &[u8], fields: &[u8]) -> Result<Option<Delivery>, OutOfMemory>
    ensures { IfOk result (λ delivery. delivery ≡ delivery_of_fields word.now fields.now) }
{
    match word {
        b"open" => Ok(read_open(fields)),
        b"in" => read_in(alloc, fields),
        b"room" => Ok(read_room(fields)),
        _ => read_other_fields(alloc, word, fields),
    }
}

/// Reads the fields of any word other than `open`, `in` and `room`.
fn read_other_fields(
    alloc: Global,
    word: &[u8],
    fields: &[u8],
) -> Result<Option<Delivery>, OutOfMemory>
    ensures { IfOk result (λ delivery. delivery ≡ other_fields_of word.now fields.now) }
{
    match word {
        b"title" => read_title(alloc, fields),
        b"end" => Ok(read_end(fields)),
        b"pull" => read_pull(alloc, fields),
        b"clock" => Ok(read_clock(fields)),
        _ => Ok(None),
    }
}

#[tactic(auto, unfolding(crate::specs::Delivery::open_of))]
fn read_open(fields: &[u8]) -> Option<Delivery>
    ensures { result ≡ open_of fields.now }
{
    let (label, peer) = cut(fields, b' ')?;
    let label = read_label(label)?;
    let peer = read_peer(peer)?;
    Some(Delivery::Open { label, peer })
}

#[tactic(auto, unfolding(crate::specs::Delivery::pull_of))]
fn read_pull(alloc: Global, fields: &[u8]) -> Result<Option<Delivery>, OutOfMemory>
    ensures { IfOk result (λ delivery. delivery ≡ pull_of fields.now) }
{
    let Some((label, mount)) = cut(fields, b' ') else {
        return Ok(None);
    };
    let Some(label) = read_label(label) else {
        return Ok(None);
    };
    let mount = Bytes::copy_from_slice(alloc, mount)?;
    Ok(Some(Delivery::Pull { label, mount }))
}

#[tactic(auto, unfolding(crate::specs::Delivery::in_of))]
fn read_in(alloc: Global, fields: &[u8]) -> Result<Option<Delivery>, OutOfMemory>
    ensures { IfOk result (λ delivery. delivery ≡ in_of fields.now) }
{
    match read_text(alloc, fields)? {
        Some((label, bytes)) => Ok(Some(Delivery::To {
            label,
            input: Input::Data(bytes),
        })),
        None => Ok(None),
    }
}

#[tactic(auto, unfolding(crate::specs::Delivery::title_delivery))]
fn read_title(alloc: Global, fields: &[u8]) -> Result<Option<Delivery>, OutOfMemory>
    ensures { IfOk result (λ delivery. delivery ≡ title_delivery fields.now) }
{
    match read_text(alloc, fields)? {
        Some((label, text)) => Ok(Some(Delivery::To {
            label,
            input: Input::Title(text),
        })),
        None => Ok(None),
    }
}

/// Returns a label and the bytes of the text after it, or `None` if the fields are not of this form.
#[tactic(auto, unfolding(crate::specs::Delivery::text_fields))]
fn read_text(alloc: Global, fields: &[u8]) -> Result<Option<(u32, Bytes)>, OutOfMemory>
    ensures { IfOk result (λ read. read ≡ text_fields fields.now) }
{
    let Some((label, text)) = cut(fields, b' ') else {
        return Ok(None);
    };
    let Some(label) = read_label(label) else {
        return Ok(None);
    };
    match unescape(alloc, text)? {
        Some(bytes) => Ok(Some((label, bytes))),
        None => Ok(None),
    }
}

#[tactic(auto, unfolding(crate::specs::Delivery::room_of))]
fn read_room(fields: &[u8]) -> Option<Delivery>
    ensures { result ≡ room_of fields.now }
{
    let (label, room) = cut(fields, b' ')?;
    let label = read_label(label)?;
    let room = read_decimal(room)?;
    Some(Delivery::To {
        label,
        input: Input::Room(room),
    })
}

#[tactic(auto, unfolding(crate::specs::Delivery::end_delivery))]
fn read_end(fields: &[u8]) -> Option<Delivery>
    ensures { result ≡ end_delivery fields.now }
{
    let label = read_label(fields)?;
    Some(Delivery::To {
        label,
        input: Input::End,
    })
}

#[tactic(auto, unfolding(crate::specs::Delivery::clock_of))]
fn read_clock(fields: &[u8]) -> Option<Delivery>
    ensures { result ≡ clock_of fields.now }
{
    let ms = read_number(fields, 10, u64::MAX)?;
    Some(Delivery::Clock { ms })
}

#[tactic(auto, unfolding(crate::specs::Delivery::label_of))]
fn read_label(text: &[u8]) -> Option<u32>
    ensures { result ≡ label_of text.now }
{
    let label = read_decimal(text)?;
    if label == 0 { None } else { Some(label) }
}

// Returns the decimal number of a text, if it fits in 32 bits. Most lines have two, so it is read in 64 bits.
#[tactic(auto, unfolding(radio_texts::specs::Numbers::number_of))]
fn read_decimal(text: &[u8]) -> Option<u32>
    ensures { result ≡ decimal_of text.now }
{
    if text.is_empty() {
        return None;
    }
    let mut number = 0u64;
    for byte in text {
        let digit = (*byte as char).to_digit(10)?;
        number = number * 10 + u64::from(digit);
        if number > u64::from(u32::MAX) {
            return None;
        }
    }
    Some(number as u32)
}
