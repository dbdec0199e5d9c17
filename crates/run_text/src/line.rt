ghost use Rattle.std.specs.Prelude.{◌≡◌, ◌++◌, IfOk, OnOk};
ghost use Rattle.run_text.specs.Words as words;
ghost use Rattle.run_text.specs.Lines as lines;
ghost use Rattle.run_text.specs.declared.line.Line.TheVariants as line;

use crate::writer::Writer;
use behaviour_tree::{Event, Kind};
use jolie_trees::{Bytes, Text};
use office_core::Entry;
use run_record::Traffic;
use sqlite_items::Boxed;
use std::alloc::{AllocError, Global};

/// What a line of a record's text says.
#[derive(Drop)]
pub enum Line {
    /// The first line.
    Version,
    Program(Bytes),
    Entry(Boxed<Entry>),
    /// The number of sessions.
    Sessions(u64),
    /// An event of the session of a number.
    Event { session: u64, event: Event },
    Traffic(Boxed<Traffic>),
    /// The last line.
    Ending,
}

/// The text of a line.
pub fn line_text(alloc: Global, line: &Line) -> Result<Text, AllocError>
    ensures { IfOk result (λ text. text ≡ lines.line_text line.now) }
{
    let mut writer = Writer::new(alloc);
    writer.line(line)?;
    Ok(writer.finished())
}

impl Writer {
    fn line(&mut self, line: &Line) -> Result<(), AllocError>
        ensures { OnOk result (self.new ≡ self.old ++ lines.line_text line.now) }
    {
        match line {
            Line::Version => self.version_line(),
            Line::Program(program) => self.program_line(program.as_slice()),
            Line::Entry(entry) => self.entry_line(entry.get()),
            Line::Sessions(count) => self.sessions_line(*count),
            Line::Event { session, event } => self.event_line(*session, event),
            Line::Traffic(traffic) => self.traffic_line(traffic.get()),
            Line::Ending => self.ending_line(),
        }
    }

    pub fn version_line(&mut self) -> Result<(), AllocError>
        ensures { OnOk result (self.new ≡ self.old ++ lines.line_text line.Version) }
    {
        self.push("record 1\n")
    }

    pub fn program_line(&mut self, program: &[u8]) -> Result<(), AllocError>
        ensures { OnOk result (self.new ≡ self.old ++ lines.line_text (line.Program program.now)) }
    {
        self.push("program")?;
        self.bytes(program)?;
        self.end_line()
    }

    pub fn entry_line(&mut self, entry: &Entry) -> Result<(), AllocError>
        ensures { OnOk result (self.new ≡ self.old ++ lines.line_text (line.Entry entry.now)) }
    {
        self.push("entry")?;
        self.number(u64::from(entry.actor))?;
        self.act(&entry.act)?;
        self.end_line()
    }

    pub fn sessions_line(&mut self, count: u64) -> Result<(), AllocError>
        ensures { OnOk result (self.new ≡ self.old ++ lines.line_text (line.Sessions count)) }
    {
        self.push("sessions")?;
        self.number(count)?;
        self.end_line()
    }

    pub fn event_line(&mut self, session: u64, event: &Event) -> Result<(), AllocError>
        ensures { OnOk result (self.new ≡ self.old ++ lines.line_text (line.Event session event.now)) }
    {
        self.push("event")?;
        self.number(session)?;
        self.number(event.strand)?;
        self.word(kind_word(event.kind))?;
        self.number(u64::from(event.number))?;
        self.number(u64::from(event.place))?;
        self.number(u64::from(event.fault))?;
        self.end_line()
    }

    pub fn traffic_line(&mut self, traffic: &Traffic) -> Result<(), AllocError>
        ensures { OnOk result (self.new ≡ self.old ++ lines.line_text (line.Traffic traffic.now)) }
    {
        self.push("traffic")?;
        self.bytes(traffic.read.as_slice())?;
        self.bytes(traffic.written.as_slice())?;
        self.end_line()
    }

    pub fn ending_line(&mut self) -> Result<(), AllocError>
        ensures { OnOk result (self.new ≡ self.old ++ lines.line_text line.Ending) }
    {
        self.push("end\n")
    }
}

/// The name of a kind.
fn kind_word(kind: Kind) -> &'static str
    ensures { result.now ≡ words.kind_word kind }
{
    match kind {
        Kind::Local => "Local",
        Kind::Install => "Install",
        Kind::Raise => "Raise",
        Kind::Handle => "Handle",
        Kind::EndScope => "EndScope",
        Kind::Compensate => "Compensate",
        Kind::In => "In",
        Kind::Reply => "Reply",
        Kind::Notify => "Notify",
        Kind::Solicit => "Solicit",
        Kind::Answer => "Answer",
        Kind::Bind => "Bind",
        Kind::Finish => "Finish",
    }
}
