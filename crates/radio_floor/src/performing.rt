//! The server as the performer of a script's deliveries.

ghost use Rattle.std.specs.Prelude.{◌≡◌, ◌++◌, MatchResult};
ghost use Rattle.radio_floor.specs.ScriptState.{written_lines};
ghost use Rattle.radio_floor.specs.Performing.{PerformsAs};
ghost use Rattle.radio_script.specs.declared.delivery.Delivery.TheVariants.{Open, Pull, To, Clock};

use crate::handler::{DeliveryAnswer, tick};
use crate::labelled::has_label;
use crate::script_server::{ScriptServer, push_lines};
use radio_addr::Peer;
use radio_script::{Delivery, Input, PerformFault, Performer};

impl ScriptServer {
    fn perform_delivery(
        &mut self,
        delivery: &Delivery,
        lines: &mut Vec<u8>,
    ) -> Result<(), PerformFault>
        ensures web { self.new.web ≡ self.old.web }
        ensures performs { PerformsAs self.old.web result self.old.handler.core self.old.connections delivery.now lines.old.items lines.new.items
            self.new.handler.core self.new.connections }
    {
        match delivery {
            Delivery::Open { label, peer } => self.perform_open(*label, *peer, lines),
            Delivery::Pull { label, mount } => self.perform_pull(*label, mount.as_slice(), lines),
            Delivery::To { label, input } => self.perform_input(*label, input, lines),
            Delivery::Clock { ms } => self.perform_clock(*ms, lines),
        }
    }

    fn perform_open(
        &mut self,
        label: u32,
        peer: Peer,
        lines: &mut Vec<u8>,
    ) -> Result<(), PerformFault>
        ensures web { self.new.web ≡ self.old.web }
        ensures performs { PerformsAs self.old.web result self.old.handler.core self.old.connections (Open label peer) lines.old.items lines.new.items
            self.new.handler.core self.new.connections }
    {
        if has_label(&self.connections, label) {
            return Err(PerformFault::Label);
        }
        match self.open(label, peer, lines) {
            Ok(()) => Ok(()),
            Err(_) => Err(PerformFault::OutOfMemory),
        }
    }

    fn perform_pull(
        &mut self,
        label: u32,
        mount: &[u8],
        lines: &mut Vec<u8>,
    ) -> Result<(), PerformFault>
        ensures web { self.new.web ≡ self.old.web }
        ensures performs { PerformsAs self.old.web result self.old.handler.core self.old.connections (Pull label mount.now) lines.old.items lines.new.items
            self.new.handler.core self.new.connections }
    {
        if has_label(&self.connections, label) {
            return Err(PerformFault::Label);
        }
        match self.connect(label, mount, lines) {
            Ok(true) => Ok(()),
            Ok(false) => Err(PerformFault::Label),
            Err(_) => Err(PerformFault::OutOfMemory),
        }
    }

    fn perform_input(
        &mut self,
        label: u32,
        input: &Input,
        lines: &mut Vec<u8>,
    ) -> Result<(), PerformFault>
        ensures web { self.new.web ≡ self.old.web }
        ensures performs { PerformsAs self.old.web result self.old.handler.core self.old.connections (To label input.now) lines.old.items lines.new.items
            self.new.handler.core self.new.connections }
    {
        match self.connections.visit(&label, &mut self.handler, input) {
            None => Err(PerformFault::Label),
            Some(Ok(None)) => Ok(()),
            Some(Ok(Some(answered))) => {
                write_answer(label, answered, &mut self.handler.spare, lines)
            }
            Some(Err(_)) => Err(PerformFault::OutOfMemory),
        }
    }

    fn perform_clock(&mut self, ms: u64, lines: &mut Vec<u8>) -> Result<(), PerformFault>
        ensures web { self.new.web ≡ self.old.web }
        ensures performs { PerformsAs self.old.web result self.old.handler.core self.old.connections (Clock ms) lines.old.items lines.new.items
            self.new.handler.core self.new.connections }
    {
        match tick(&mut self.handler.core, ms) {
            Ok(()) => Ok(()),
            Err(_) => Err(PerformFault::OutOfMemory),
        }
    }
}

impl Performer for ScriptServer {
    ghost use Rattle.std.specs.Prelude.{◌≡◌};
    ghost use Rattle.radio_floor.specs.Performing.{Performs};

    ghost performs = { λ old delivery lines new. (new.web ≡ old.web) × Performs old.web old.handler.core old.connections delivery lines new.handler.core new.connections };

    fn perform(&mut self, delivery: &Delivery, lines: &mut Vec<u8>) -> Result<(), PerformFault> {
        self.perform_delivery(delivery, lines)
    }
}

/// Writes the lines of one delivery, and keeps the memory of its bytes in `spare`.
fn write_answer(
    label: u32,
    answered: DeliveryAnswer,
    spare: &mut Vec<u8>,
    lines: &mut Vec<u8>,
) -> Result<(), PerformFault>
    ensures { MatchResult result
        (λ _. lines.new.items ≡ lines.old.items ++ written_lines label answered.bytes.items answered.state)
        (λ fault. fault ≡ PerformFault.OutOfMemory) }
{
    let DeliveryAnswer { bytes, state } = answered;
    let pushed = push_lines(label, bytes.as_slice(), state, lines);
    *spare = bytes;
    match pushed {
        Ok(()) => Ok(()),
        Err(_) => Err(PerformFault::OutOfMemory),
    }
}
