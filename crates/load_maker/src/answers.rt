ghost use Rattle.std.specs.Prelude.{◌≡◌, IfOk, count_by};
ghost use Rattle.load_maker.specs.Summary.{answers, begins, says, summary};

use behaviour_tree::Outcome;
use jolie_trees::{Root, Text};
use office_core::{Act, Entry};
use std::alloc::{AllocError, Global};

/// The line that says of a load of so many lines how many of the answers of a history begin with each of the words.
pub fn summary(alloc: Global, lines: u32, entries: &[Entry]) -> Result<Text, AllocError>
    ensures { IfOk result (λ line. line ≡ summary lines entries.now) }
{
    let well = count_of(entries, "ok");
    let unpaid = count_of(entries, "nofunds");
    let short = count_of(entries, "short");
    let line = format!(in alloc; "lines {lines} ok {well} nofunds {unpaid} short {short}\n")?;
    Ok(Text::from_string(line))
}

/// How many answers begin with a word.
fn count_of(entries: &[Entry], word: &str) -> usize
    ensures { result ≡ count_by (answers word.now) entries.now }
{
    entries.iter().filter(|entry| answers(entry, word)).count()
}

/// Whether an entry is an answer that begins with a word.
fn answers(entry: &Entry, word: &str) -> bool
    ensures { result ≡ answers word.now entry.now }
{
    match &entry.act {
        Act::Collect { outcome, .. } => says(outcome, word),
        _ => false,
    }
}

/// Whether an answer is a text that begins with a word.
fn says(outcome: &Outcome, word: &str) -> bool
    ensures { result ≡ says word.now outcome.now }
{
    match outcome {
        Outcome::Value(tree) => begins(tree.root(), word),
        _ => false,
    }
}

fn begins(root: &Root, word: &str) -> bool
    ensures { result ≡ begins word.now root.now }
{
    match root {
        Root::Text(text) => text.as_str().as_bytes().starts_with(word.as_bytes()),
        _ => false,
    }
}
