//! Lines that hand something to a session or ask of it.

use crate::sessions::asked::{asked, is_spent, needed};
use crate::sessions::events::event_words;
use crate::sessions::gift::read_gift;
use behaviour_tree::{Event, Given, Program};
use std::alloc::{AllocError, Global};
use term_session::{StepError, TermSession};
use test_values::WordError;

/// What a session answers to the lines, each after its line and ` => `.
///
/// - `step S GIFT` does the event of strand S. It gives the event, or `refused S` where S has no event for this gift.
/// - `rounds S N KIND ..` does events of strand S for which nothing is given, of these kinds in turn, N times. It gives
///   how many rounds there were before an event of another kind came, or none.
/// - `need S` gives what the event of strand S asks, or `none` where it has no event.
/// - `enabled`, `open` and `waiting` give strands, messages and calls, or `-` where there are none.
/// - `ended` gives `yes` or `no`.
///
/// Where memory runs out in a step the program ends, once the session was found to be spent.
pub fn played(
    alloc: Global,
    session: &mut TermSession,
    program: &Program,
    lines: &str,
) -> Result<String, WordError> {
    let mut all = String::new(alloc);
    for line in lines.split('\n') {
        if !all.as_str().is_empty() {
            all.push('\n')?;
        }
        let (ask, want) = line.split_once(" => ").unwrap_or((line, ""));
        let answer = answered(alloc, session, program, ask, want)?;
        all.push_str(ask)?;
        all.push_str(" => ")?;
        all.push_str(answer.as_str())?;
    }
    Ok(all)
}

fn answered(
    alloc: Global,
    session: &mut TermSession,
    program: &Program,
    ask: &str,
    want: &str,
) -> Result<String, WordError> {
    let (verb, rest) = ask.split_once(' ').unwrap_or((ask, ""));
    match verb {
        "step" => step_told(alloc, session, program, rest),
        "rounds" => rounds(alloc, session, program, rest),
        "need" => Ok(needed(alloc, session, program, number(rest)?, want)?),
        _ => asked(alloc, session, program, verb),
    }
}

/// What a step came to.
#[derive(Clone, Copy)]
enum Stepped {
    Did(Event),
    Refused(u64),
    /// Memory ran out, and the session is not spent.
    GoesOn,
}

/// Does the event of a strand for a gift.
fn step(
    session: &mut TermSession,
    program: &Program,
    strand: u64,
    gift: Box<Given>,
) -> Result<Stepped, AllocError> {
    match session.step(program, strand, Box::into_inner(gift)) {
        Ok(event) => Ok(Stepped::Did(event)),
        Err(StepError::NotEnabled(refused)) => Ok(Stepped::Refused(refused)),
        Err(StepError::Memory(error)) => {
            if is_spent(session, program) {
                return Err(error);
            }
            Ok(Stepped::GoesOn)
        }
    }
}

fn step_told(
    alloc: Global,
    session: &mut TermSession,
    program: &Program,
    words: &str,
) -> Result<String, WordError> {
    let (strand, gift) = words.split_once(' ').unwrap_or((words, ""));
    let strand = number(strand)?;
    let gift = read_gift(alloc, gift)?;
    match step(session, program, strand, gift)? {
        Stepped::Did(event) => Ok(event_words(alloc, &event, &program.parts().names)?),
        Stepped::Refused(strand) => Ok(format!(in alloc; "refused {strand}")?),
        Stepped::GoesOn => Ok(String::from_str(alloc, "goes on without memory")?),
    }
}

fn rounds(
    alloc: Global,
    session: &mut TermSession,
    program: &Program,
    words: &str,
) -> Result<String, WordError> {
    let (strand, words) = words.split_once(' ').ok_or(WordError::Lacking)?;
    let (most, kinds) = words.split_once(' ').ok_or(WordError::Lacking)?;
    let strand = number(strand)?;
    let most = number(most)?;
    let mut count = 0_u64;
    for _ in 0..most {
        if !goes_round(alloc, session, program, strand, kinds)? {
            break;
        }
        count = count.wrapping_add(1);
    }
    Ok(count.to_string(alloc)?)
}

/// Does events of a strand for which nothing is given, and says whether they are of these kinds in turn.
fn goes_round(
    alloc: Global,
    session: &mut TermSession,
    program: &Program,
    strand: u64,
    kinds: &str,
) -> Result<bool, AllocError> {
    for kind in kinds.split(' ') {
        if !happens(alloc, session, program, strand, kind)? {
            return Ok(false);
        }
    }
    Ok(true)
}

fn happens(
    alloc: Global,
    session: &mut TermSession,
    program: &Program,
    strand: u64,
    kind: &str,
) -> Result<bool, AllocError> {
    let gift = Box::new(alloc, Given::Nothing)?;
    match step(session, program, strand, gift)? {
        Stepped::Did(event) => {
            let Event { kind: have, .. } = event;
            let have = format!(in alloc; "{have:?}")?;
            Ok(have.as_str() == kind)
        }
        Stepped::Refused(_) | Stepped::GoesOn => Ok(false),
    }
}

fn number(word: &str) -> Result<u64, WordError> {
    u64::from_str_radix(word, 10).map_err(|_| WordError::Unknown)
}
