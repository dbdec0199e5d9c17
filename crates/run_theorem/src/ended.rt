//! How a run ended.

use run_record::Record;

/// How a run ended: its status, and the record of the run.
#[derive(Drop)]
pub struct Ended {
    pub status: u8,
    pub report: Record,
}
