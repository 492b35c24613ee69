//! A slave's connection to its master, by which it asks for the list of streams.

ghost use Rattle.std.specs.Prelude.{◌≡◌, ◌≢◌, ◌⊎◌, ◌+◌, ◌<◌, ◌++◌, [], List, ℕ, length, true, Ok, IfOk, IfErr, IfSome, OnOk};
ghost use Rattle.radio_relay.specs.Request.{list_request};
ghost use Rattle.radio_relay.specs.StreamList.{names_listed};
ghost use Rattle.radio_masters.specs.declared.list_answer.MasterListFault.TheVariants.{OutOfMemory as NoMemory, TooLong};
ghost use Rattle.radio_masters.specs.ListAnswers.{IsListBody, WhyNoList, most_of_answer};
ghost use Rattle.radio_masters.specs.Pulls.{FrontIsTaken};

use crate::OutOfMemory;
use crate::asking::Asking;
use crate::list_answer::{MAX_LIST, MasterListFault, read_list_answer};
use radio_connections::{Line, Received};
use radio_relay::list_request;
use radio_settings_values::SlaveSetting;
use radio_values::MountName;
use std::alloc::Global;
use std::collections::BTreeSet;
use std::marker::Model;

/// How many bytes of an answer are kept at most: a list and its head.
const MOST_HELD: usize = MAX_LIST as usize + 16_384;

/// A slave's connection to its master: the line, what it has not taken of the request, and the answer as far as it has
/// come.
///
/// In contracts it is a `ListOver`.
#[derive(Drop)]
pub struct ListPull<L: Line> {
    alloc: Global,
    asking: Asking,
    line: L,
    held: Vec<u8>,
}

impl<L: Line> Model for ListPull<L> {
    ghost use Rattle.radio_masters.specs.ListAnswers.{ListOver};

    ghost Value = { ListOver };

    ghost view = { λ p. record { outgoing = p.asking; given = L.given p.line; taken = L.taken p.line; calls = L.calls p.line; came = p.held.items } };
}

impl<L: Line> ListPull<L> {
    /// Asks the master of this slave over this line. Nothing was written. `OutOfMemory` if memory was refused; the line
    /// is closed then.
    pub fn new(alloc: Global, slave: &SlaveSetting, line: L) -> Result<ListPull<L>, OutOfMemory>
        ensures { IfOk result (λ pull. pull ≡ record { outgoing = list_request slave.now; given = L.given line; taken = L.taken line; calls = L.calls line; came = [] }) }
    {
        let text = list_request(alloc, slave)?;
        Ok(ListPull {
            alloc,
            asking: Asking::new(text),
            line,
            held: Vec::new(alloc),
        })
    }

    /// Writes once what the line takes of the request, and reads once into the buffer. Returns the list once the master has
    /// closed, and `None` until then. The faults are those of [`read_list_answer`], `Cut` if the line has failed, and `TooLong`
    /// if more has come than a list and its head.
    // rule: List of a slave
    pub fn turn(
        &mut self,
        buffer: &mut [u8],
    ) -> Result<Option<BTreeSet<MountName>>, MasterListFault>
        ensures written { FrontIsTaken self.old.outgoing self.old.taken self.new.outgoing self.new.taken }
        ensures came { OnOk result ((bytes : List ℕ) × (self.new.given ≡ self.old.given ++ bytes) × (self.new.came ≡ self.old.came ++ bytes)) }
        ensures list { IfOk result (λ list. IfSome list (λ names. (body : List ℕ) × IsListBody self.new.came true (Ok body) × (names.keys ≡ names_listed body))) }
        ensures fault { IfErr result (λ fault. fault ≢ NoMemory → WhyNoList fault self.old self.new) }
    {
        if !self.asking.write(&mut self.line) {
            return Err(MasterListFault::Cut);
        }
        match self.line.read(buffer) {
            Received::Bytes(count) => match hold(&mut self.held, &buffer[..count]) {
                Ok(()) => Ok(None),
                Err(fault) => Err(fault),
            },
            Received::Nothing => Ok(None),
            Received::Closed => match read_list_answer(self.alloc, self.held.as_slice(), true) {
                Ok(names) => Ok(Some(names)),
                Err(fault) => Err(fault),
            },
            Received::Fault => Err(MasterListFault::Cut),
        }
    }
}

/// These bytes have come behind those that are held.
fn hold(held: &mut Vec<u8>, bytes: &[u8]) -> Result<(), MasterListFault>
    ensures held { OnOk result (held.new.items ≡ held.old.items ++ bytes.now) }
    ensures fault { IfErr result (λ fault. (fault ≡ NoMemory) ⊎ ((fault ≡ TooLong) × (most_of_answer < length held.old.items + length bytes.now))) }
{
    if bytes.len() > MOST_HELD.saturating_sub(held.len()) {
        return Err(MasterListFault::TooLong);
    }
    match held.extend_from_slice(bytes) {
        Ok(()) => Ok(()),
        Err(_) => Err(MasterListFault::OutOfMemory),
    }
}
