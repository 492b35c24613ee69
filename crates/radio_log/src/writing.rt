//! How each fact is written: its word, and its fields in their order.
ghost use Rattle.std.specs.Prelude.{◌≡◌, ◌++◌, OnOk};
ghost use Rattle.radio_log.specs.Lines.{fault_fields, faulty_fields, fields_text, outcome_fields, place_fields, request_fields, fact_text};
ghost use Rattle.radio_log.specs.declared.facts.Fact.TheVariants as facts;

use crate::facts::{
    ClientEnded, CommandNote, Fact, FaultNote, FaultyKey, KeyPlace, RelayFailed, RelayGone,
    RelayUp, SourceGone, SourceUp, TitleNote, Warning,
};
use crate::fields::Fields;
use crate::{OutOfMemory, QuotedText};

impl Fact<'_> {
    /// Adds the fact's word and its fields.
    pub(crate) fn push_to(&self, to: &mut Fields) -> Result<(), OutOfMemory>
        ensures { OnOk result (to.new ≡ to.old ++ fact_text self.now) }
    {
        match self {
            Fact::Started { version, address } => push_start(to, version, address),
            Fact::Ended { why } => push_end(to, why),
            Fact::ClientEnded(client) => client.push_to(to),
            Fact::SourceUp(source) => source.push_to(to),
            Fact::SourceGone(source) => source.push_to(to),
            Fact::RelayUp(relay) => relay.push_to(to),
            Fact::RelayGone(relay) => relay.push_to(to),
            Fact::RelayFailed(relay) => relay.push_to(to),
            Fact::MountUp { mount } => push_mount_up(to, mount),
            Fact::MountGone { mount, why } => push_mount_gone(to, mount, why),
            Fact::Title(title) => title.push_to(to),
            Fact::Command(command) => command.push_to(to),
            Fact::Warning(warning) => warning.push_to(to),
            Fact::Fault(fault) => fault.push_to(to),
            Fact::Lost { lines } => push_lost(to, *lines),
        }
    }
}

fn push_start(
    to: &mut Fields,
    version: &QuotedText<'_>,
    address: &QuotedText<'_>,
) -> Result<(), OutOfMemory>
    ensures { OnOk result (to.new ≡ to.old ++ fact_text (facts.Started version.now address.now)) }
{
    to.put_kind("started")?;
    to.put_text("version", version)?;
    to.put_text("address", address)
}

fn push_end(to: &mut Fields, why: &QuotedText<'_>) -> Result<(), OutOfMemory>
    ensures { OnOk result (to.new ≡ to.old ++ fact_text (facts.Ended why.now)) }
{
    to.put_kind("ended")?;
    to.put_text("why", why)
}

fn push_mount_up(to: &mut Fields, mount: &QuotedText<'_>) -> Result<(), OutOfMemory>
    ensures { OnOk result (to.new ≡ to.old ++ fact_text (facts.MountUp mount.now)) }
{
    to.put_kind("mount-up")?;
    to.put_text("mount", mount)
}

fn push_mount_gone(
    to: &mut Fields,
    mount: &QuotedText<'_>,
    why: &QuotedText<'_>,
) -> Result<(), OutOfMemory>
    ensures { OnOk result (to.new ≡ to.old ++ fact_text (facts.MountGone mount.now why.now)) }
{
    to.put_kind("mount-gone")?;
    to.put_text("mount", mount)?;
    to.put_text("why", why)
}

fn push_lost(to: &mut Fields, lines: u64) -> Result<(), OutOfMemory>
    ensures { OnOk result (to.new ≡ to.old ++ fact_text (facts.Lost lines)) }
{
    to.put_kind("lost")?;
    to.put_count("lines", lines)
}

impl ClientEnded<'_> {
    fn push_to(&self, to: &mut Fields) -> Result<(), OutOfMemory>
        ensures { OnOk result (to.new ≡ to.old ++ fact_text (facts.ClientEnded self.now)) }
    {
        to.put_kind("client")?;
        self.push_request(to)?;
        self.push_outcome(to)
    }

    /// What it asked for.
    fn push_request(&self, to: &mut Fields) -> Result<(), OutOfMemory>
        ensures { OnOk result (to.new ≡ to.old ++ fields_text (request_fields self.now)) }
    {
        to.put_peer("peer", self.peer)?;
        to.put_text("method", &self.method)?;
        to.put_text("path", &self.path)?;
        to.put_text("mount", &self.mount)
    }

    /// What came of it.
    fn push_outcome(&self, to: &mut Fields) -> Result<(), OutOfMemory>
        ensures { OnOk result (to.new ≡ to.old ++ fields_text (outcome_fields self.now)) }
    {
        to.put_count("status", u64::from(self.status))?;
        to.put_text("why", &self.why)?;
        to.put_text("user", &self.user)?;
        to.put_count("seconds", self.seconds)?;
        to.put_count("bytes", self.bytes)?;
        to.put_text("agent", &self.agent)
    }
}

impl SourceUp<'_> {
    fn push_to(&self, to: &mut Fields) -> Result<(), OutOfMemory>
        ensures { OnOk result (to.new ≡ to.old ++ fact_text (facts.SourceUp self.now)) }
    {
        to.put_kind("source-up")?;
        to.put_text("mount", &self.mount)?;
        to.put_peer("peer", self.peer)?;
        to.put_text("type", &self.content_type)?;
        to.put_text("agent", &self.agent)
    }
}

impl SourceGone<'_> {
    fn push_to(&self, to: &mut Fields) -> Result<(), OutOfMemory>
        ensures { OnOk result (to.new ≡ to.old ++ fact_text (facts.SourceGone self.now)) }
    {
        to.put_kind("source-gone")?;
        to.put_text("mount", &self.mount)?;
        to.put_peer("peer", self.peer)?;
        to.put_text("why", &self.why)?;
        to.put_count("seconds", self.seconds)?;
        to.put_count("bytes", self.bytes)
    }
}

impl RelayUp<'_> {
    fn push_to(&self, to: &mut Fields) -> Result<(), OutOfMemory>
        ensures { OnOk result (to.new ≡ to.old ++ fact_text (facts.RelayUp self.now)) }
    {
        to.put_kind("relay-up")?;
        to.put_text("mount", &self.mount)?;
        to.put_text("master", &self.master)?;
        to.put_text("type", &self.content_type)
    }
}

impl RelayGone<'_> {
    fn push_to(&self, to: &mut Fields) -> Result<(), OutOfMemory>
        ensures { OnOk result (to.new ≡ to.old ++ fact_text (facts.RelayGone self.now)) }
    {
        to.put_kind("relay-gone")?;
        to.put_text("mount", &self.mount)?;
        to.put_text("master", &self.master)?;
        to.put_text("why", &self.why)?;
        to.put_count("seconds", self.seconds)?;
        to.put_count("bytes", self.bytes)
    }
}

impl RelayFailed<'_> {
    fn push_to(&self, to: &mut Fields) -> Result<(), OutOfMemory>
        ensures { OnOk result (to.new ≡ to.old ++ fact_text (facts.RelayFailed self.now)) }
    {
        to.put_kind("relay-failed")?;
        to.put_text("mount", &self.mount)?;
        to.put_text("master", &self.master)?;
        to.put_text("why", &self.why)?;
        to.put_count("times", self.times)
    }
}

impl TitleNote<'_> {
    fn push_to(&self, to: &mut Fields) -> Result<(), OutOfMemory>
        ensures { OnOk result (to.new ≡ to.old ++ fact_text (facts.Title self.now)) }
    {
        to.put_kind("title")?;
        to.put_text("mount", &self.mount)?;
        to.put_text("title", &self.title)
    }
}

impl CommandNote<'_> {
    fn push_to(&self, to: &mut Fields) -> Result<(), OutOfMemory>
        ensures { OnOk result (to.new ≡ to.old ++ fact_text (facts.Command self.now)) }
    {
        to.put_kind("command")?;
        to.put_text("command", &self.name)?;
        to.put_text("mount", &self.mount)?;
        to.put_text("argument", &self.argument)?;
        to.put_text("user", &self.user)?;
        to.put_peer("peer", self.peer)
    }
}

impl Warning<'_> {
    fn push_to(&self, to: &mut Fields) -> Result<(), OutOfMemory>
        ensures { OnOk result (to.new ≡ to.old ++ fact_text (facts.Warning self.now)) }
    {
        to.put_kind("warning")?;
        to.put_text("why", &self.why)?;
        to.put_text("key", &self.key)?;
        to.put_text("mount", &self.mount)?;
        to.put_count("limit", self.limit)?;
        self.place.push_to(to)
    }
}

impl KeyPlace<'_> {
    fn push_to(&self, to: &mut Fields) -> Result<(), OutOfMemory>
        ensures { OnOk result (to.new ≡ to.old ++ fields_text (place_fields self.now)) }
    {
        to.put_text("table", &self.table)?;
        to.put_count("line", self.line)?;
        to.put_text("did-you-mean", &self.did_you_mean)?;
        to.put_text("belongs-to", &self.belongs_to)
    }
}

impl FaultNote<'_> {
    fn push_to(&self, to: &mut Fields) -> Result<(), OutOfMemory>
        ensures { OnOk result (to.new ≡ to.old ++ fact_text (facts.Fault self.now)) }
    {
        to.put_kind("fault")?;
        self.push_reason(to)?;
        self.at.push_to(to)
    }

    /// What it is, and why.
    fn push_reason(&self, to: &mut Fields) -> Result<(), OutOfMemory>
        ensures { OnOk result (to.new ≡ to.old ++ fields_text (fault_fields self.now)) }
    {
        to.put_text("why", &self.why)?;
        to.put_text("file", &self.file)?;
        to.put_count("line", self.line)?;
        to.put_count("column", self.column)?;
        to.put_text("address", &self.address)?;
        to.put_text("reason", &self.reason)
    }
}

impl FaultyKey<'_> {
    fn push_to(&self, to: &mut Fields) -> Result<(), OutOfMemory>
        ensures { OnOk result (to.new ≡ to.old ++ fields_text (faulty_fields self.now)) }
    {
        to.put_text("table", &self.table)?;
        to.put_text("mount", &self.mount)?;
        to.put_text("value", &self.value)?;
        to.put_text("allowed", &self.allowed)
    }
}
