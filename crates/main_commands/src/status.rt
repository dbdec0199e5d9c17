//! The statuses that a call of the program ends with. Those of a run, 4 to 7, come from `run_lines` and `run_doors`.

/// All was done; of `run`, the input was read to its end.
pub const DONE: u8 = 0;

/// The words of the command line are no usage.
pub const USAGE_ERROR: u8 = 1;

/// The file can't be read.
pub const FILE_FAILED: u8 = 2;

/// The file is refused.
pub const REFUSED: u8 = 3;

/// The output or the notes failed.
pub const OUTPUT_FAILED: u8 = 5;

/// Memory ran out: what the program makes of an error of `run`.
pub const OUT_OF_MEMORY: u8 = 9;

/// What they mean, as the help ends.
pub const MEANINGS: &str = "Status:
  0  all was done
  1  invalid usage
  2  FILE can't be read
  3  FILE is refused: the reason and the place are told
  4  standard input failed
  5  standard output or standard error failed
  6  a session used its whole budget of events and was not done
  7  a location could not be listened at, or its listener failed
  9  out of memory";
