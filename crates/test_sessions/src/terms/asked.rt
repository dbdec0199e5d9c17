//! Lines that change a term or ask of it.

use crate::terms::forms::fault;
use crate::terms::outline::{small, tell_form};
use crate::terms::script::{Script, number, two_numbers};
use session_faults::{Decision, carry, decided, kill, least_ready};
use session_forms::{Term, normalize, open_requests, strands_of, waiting};
use std::alloc::{AllocError, Global};
use test_behaviours::Outline;
use test_values::WordError;

/// What the lines give of the last form, which runs in strand 0, a line for each.
///
/// - `show` gives its words and `next` the next strand; `normalize` and `kill F` give the words of what is left.
/// - `ready` gives the least strand that is ready in the body of a scope, or `-`.
/// - `decided N F` and `carry N F` give where fault F of strand N comes to, and a carried one what is left, unless it
///   is blocked or absent.
/// - `open`, `waiting` and `strands` give the numbers of messages, calls and strands, or `-`.
pub fn told(script: &mut Script, lines: &str) -> Result<String, WordError> {
    let mut all = String::new(script.alloc);
    for line in lines.split('\n') {
        if !all.as_str().is_empty() {
            all.push('\n')?;
        }
        all.push_str(told_of_line(script, line)?.as_str())?;
    }
    Ok(all)
}

fn told_of_line(script: &mut Script, line: &str) -> Result<String, WordError> {
    let (verb, rest) = line.split_once(' ').unwrap_or((line, ""));
    let mut form = script.last()?;
    let mut outline = Outline::new(script.alloc);
    match verb {
        "next" => outline.numbered("next", small(script.next))?,
        "normalize" => normalized(script, &mut form, &mut outline)?,
        "kill" => killed(script.alloc, &mut form, number(rest)?, &mut outline)?,
        "carry" => carried(script.alloc, &mut form, two_numbers(rest)?, &mut outline)?,
        _ => tell_answer(script.alloc, &form, verb, rest, &mut outline)?,
    }
    script.put(form)?;
    Ok(outline.finished())
}

fn normalized(
    script: &mut Script,
    form: &mut Box<Term>,
    outline: &mut Outline,
) -> Result<(), AllocError> {
    script.next = normalize(script.alloc, form, script.next)?;
    tell_form(outline, form)
}

fn killed(
    alloc: Global,
    form: &mut Box<Term>,
    name: u32,
    outline: &mut Outline,
) -> Result<(), AllocError> {
    let fault = fault(alloc, name)?;
    kill(alloc, form, &fault)?;
    tell_form(outline, form)
}

fn carried(
    alloc: Global,
    form: &mut Box<Term>,
    (strand, name): (u32, u32),
    outline: &mut Outline,
) -> Result<(), AllocError> {
    let fault = fault(alloc, name)?;
    let decision = carry(alloc, form, strand as u64, &fault, 0)?;
    tell_decision(outline, decision)?;
    match decision {
        Decision::Blocked(_) | Decision::Absent => Ok(()),
        Decision::Up | Decision::Caught(_) | Decision::Ended(_) => tell_form(outline, form),
    }
}

/// What a form is asked.
fn tell_answer(
    alloc: Global,
    form: &Term,
    verb: &str,
    rest: &str,
    outline: &mut Outline,
) -> Result<(), WordError> {
    match verb {
        "show" => Ok(tell_form(outline, form)?),
        "ready" => tell_ready(outline, form),
        "decided" => {
            let (strand, fault) = two_numbers(rest)?;
            Ok(tell_decision(outline, decided(form, strand as u64, fault, 0))?)
        }
        "open" => {
            let messages = open_requests(alloc, form)?;
            Ok(tell_numbers(outline, "message", messages.as_slice())?)
        }
        "waiting" => {
            let calls = waiting(alloc, form)?;
            Ok(tell_numbers(outline, "call", calls.as_slice())?)
        }
        "strands" => {
            let strands = strands_of(alloc, form, 0)?;
            Ok(tell_strands(outline, strands.as_slice())?)
        }
        _ => Err(WordError::Unknown),
    }
}

fn tell_ready(outline: &mut Outline, form: &Term) -> Result<(), WordError> {
    let Term::Scope {
        installed,
        body,
        ..
    } = form
    else {
        return Err(WordError::Lacking);
    };
    match least_ready(body, 0, installed) {
        Some(strand) => Ok(outline.numbered("strand", small(strand))?),
        None => Ok(outline.word("-")?),
    }
}

fn tell_decision(outline: &mut Outline, decision: Decision) -> Result<(), AllocError> {
    match decision {
        Decision::Up => outline.word("up"),
        Decision::Caught(scope) => outline.numbered("caught", scope),
        Decision::Ended(scope) => outline.numbered("ended", scope),
        Decision::Blocked(strand) => outline.numbered("blocked", small(strand)),
        Decision::Absent => outline.word("absent"),
    }
}

fn tell_numbers(outline: &mut Outline, word: &str, numbers: &[u32]) -> Result<(), AllocError> {
    if numbers.is_empty() {
        return outline.word("-");
    }
    for number in numbers {
        outline.numbered(word, *number)?;
    }
    Ok(())
}

fn tell_strands(outline: &mut Outline, strands: &[u64]) -> Result<(), AllocError> {
    for strand in strands {
        outline.numbered("strand", small(*strand))?;
    }
    Ok(())
}
