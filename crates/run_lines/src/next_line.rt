//! The next line that is not blank.

ghost use Rattle.std.specs.Prelude.{◌≡◌, ◌<◌, ◌^◌, [], List, ℕ, Option, IfOk, MatchResult};
ghost use Rattle.run_theorem.specs.Split.{split, IsOpen, is_blank as blank};
ghost use Rattle.run_lines.specs.Passing.{IsLine};
ghost use Rattle.run_lines.specs.FrontSteps.{reading, last_step, progress, step_after, Comes, ComesFurther, IsIdle, Looks};

use crate::lines::Lines;
use crate::piece::Piece;
use outside_traits::Source;
use std::alloc::AllocError;

/// What comes after the lines that were passed.
#[derive(Clone, Copy, Debug, PartialEq, Eq)]
pub(crate) enum Step {
    /// A line of that length that is not blank.
    Line(usize),
    /// A last line without an end, which is not blank.
    Last,
    /// Nothing more.
    End,
    /// The source failed, which cuts a line.
    Cut,
}

/// Passes blank lines, and reads as far as the next line that is not blank. After want of memory no other line was
/// passed.
pub(crate) fn next_line<S: Source>(source: &mut S, lines: &mut Lines) -> Result<Step, AllocError>
    ensures { MatchResult result
        (λ step. Looks step (reading lines.old (S.told source.old).unread (S.told source.old).faults)
        (reading lines.new (S.told source.new).unread (S.told source.new).faults))
        (λ _. IsIdle (reading lines.old (S.told source.old).unread (S.told source.old).faults)
        (reading lines.new (S.told source.new).unread (S.told source.new).faults)) }
{
    loop {
        let found = look(source, lines)?;
        match found {
            Some(step) => return Ok(step),
            None => {}
        }
    }
}

/// Looks whether a line is there that is not blank. Else it passes a blank line or reads a piece.
fn look<S: Source>(source: &mut S, lines: &mut Lines) -> Result<Option<Step>, AllocError>
    ensures comes { MatchResult result
        (λ step. Comes step (reading lines.old (S.told source.old).unread (S.told source.old).faults)
        (reading lines.new (S.told source.new).unread (S.told source.new).faults))
        (λ _. IsIdle (reading lines.old (S.told source.old).unread (S.told source.old).faults)
        (reading lines.new (S.told source.new).unread (S.told source.new).faults)) }
    ensures further { IfOk result (λ step. ComesFurther step lines.old lines.new) }
    ensures within { progress lines.old < 2 ^ 64 }
{
    match lines.find() {
        Some(length) => Ok(line_of(lines, length)),
        None => read_on(source, lines),
    }
}

/// The line of that length, unless it is blank: then it is passed.
fn line_of(lines: &mut Lines, length: usize) -> Option<Step>
    requires line { IsLine length lines.old.rest }
    requires ended { (split lines.old.passed).1 ≡ [] }
    ensures comes { (left : Option (List ℕ)) (faults : ℕ)
        → Comes result (reading lines.old left faults) (reading lines.new left faults) }
    ensures further { ComesFurther result lines.old lines.new }
{
    if is_blank(lines.line(length)) {
        lines.pass(length);
        return None;
    }
    Some(Step::Line(length))
}

/// Reads a piece. Where there is none it says how the lines end.
fn read_on<S: Source>(source: &mut S, lines: &mut Lines) -> Result<Option<Step>, AllocError>
    requires unended { IsOpen lines.old.rest }
    requires ended { (split lines.old.passed).1 ≡ [] }
    ensures comes { MatchResult result
        (λ step. Comes step (reading lines.old (S.told source.old).unread (S.told source.old).faults)
        (reading lines.new (S.told source.new).unread (S.told source.new).faults))
        (λ _. IsIdle (reading lines.old (S.told source.old).unread (S.told source.old).faults)
        (reading lines.new (S.told source.new).unread (S.told source.new).faults)) }
    ensures further { IfOk result (λ step. ComesFurther step lines.old lines.new) }
{
    let piece = lines.fill(source)?;
    Ok(after_piece(lines, piece))
}

/// How the lines end, where nothing more can be read.
fn after_piece(lines: &Lines, piece: Piece) -> Option<Step>
    ensures { result ≡ step_after piece lines.now.rest }
{
    match piece {
        Piece::More => None,
        Piece::End => Some(last_of(lines)),
        Piece::Failed => Some(Step::Cut),
    }
}

/// The last line, unless it is blank.
fn last_of(lines: &Lines) -> Step
    ensures { result ≡ last_step lines.now.rest }
{
    if is_blank(lines.rest()) {
        Step::End
    } else {
        Step::Last
    }
}

fn is_blank(line: &[u8]) -> bool
    ensures { result ≡ blank line.now }
{
    line.iter()
        .all(|byte| *byte == b' ' || *byte == b'\t' || *byte == b'\r')
}
