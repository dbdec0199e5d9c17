ghost use Rattle.std.specs.Prelude.{◌≡◌, ◌++◌, IfOk, OnOk, flat_map, map};
ghost use Rattle.run_text.specs.Lines.{line_text};
ghost use Rattle.run_text.specs.Lines as lines;
ghost use Rattle.run_text.specs.declared.line.Line.TheVariants as line;

use crate::writer::Writer;
use behaviour_tree::{Event, Events};
use jolie_trees::Text;
use office_core::Entry;
use run_record::{Record, Traffic};
use std::alloc::{AllocError, Global};

/// The text of a record.
pub fn record_text(alloc: Global, run: &Record) -> Result<Text, AllocError>
    ensures { IfOk result (λ text. text ≡ lines.record_text run.now) }
{
    let mut writer = Writer::new(alloc);
    writer.version_line()?;
    writer.program_line(run.program.as_slice())?;
    writer.entries(run.history.entries.as_slice())?;
    writer.sessions_line(run.sessions.len() as u64)?;
    writer.sessions(run.sessions.as_slice())?;
    writer.traffic(run.traffic.as_slice())?;
    writer.ending_line()?;
    Ok(writer.finished())
}

impl Writer {
    fn entries(&mut self, entries: &[Entry]) -> Result<(), AllocError>
        ensures { OnOk result (self.new ≡ self.old ++ flat_map line_text (map line.Entry entries.now)) }
    {
        for entry in entries {
            self.entry_line(entry)?;
        }
        Ok(())
    }

    fn sessions(&mut self, sessions: &[Events]) -> Result<(), AllocError>
        ensures { OnOk result (self.new ≡ self.old ++ flat_map line_text (lines.event_lines 0 sessions.now)) }
    {
        for (session, events) in sessions.iter().enumerate() {
            self.events(session, events.as_slice())?;
        }
        Ok(())
    }

    /// The events of the session of a number.
    fn events(&mut self, session: usize, events: &[Event]) -> Result<(), AllocError>
        ensures { OnOk result (self.new ≡ self.old ++ flat_map line_text (map (line.Event session) events.now)) }
    {
        for event in events {
            self.event_line(session as u64, event)?;
        }
        Ok(())
    }

    fn traffic(&mut self, traffic: &[Traffic]) -> Result<(), AllocError>
        ensures { OnOk result (self.new ≡ self.old ++ flat_map line_text (map line.Traffic traffic.now)) }
    {
        for traffic in traffic {
            self.traffic_line(traffic)?;
        }
        Ok(())
    }
}
