ghost use Rattle.jolie_round_trip.specs.ReadsBack.{PrintedFilesReadBack};

use jolie_parse::tokens_have_one_tree;
use jolie_tokens::texts_have_one_reading;

/// What is printed of a file that was read is read as the same file, but for places.
pub fn printed_files_read_back()
    ensures { PrintedFilesReadBack }
{
    texts_have_one_reading();
    tokens_have_one_tree();
}
