//! Requests out of the bytes of a connection.
ghost use Rattle.std.specs.Prelude.{◌≡◌, [], false, IfOk, OnErr};
ghost use Rattle.http_port.specs.Feeding.{Open, Spent, Feeds, Gives, place_of, next_in_body, StageHolds};
ghost use Rattle.http_port.specs.Walks.{AsksWhereGiven};
ghost use Rattle.http_port.specs.Rules.{Judges};
ghost use Rattle.http_port.specs.declared.verdict.Verdict.TheVariants.{Admits};

use crate::scan::{START, Scan};
use crate::unread::Unread;
use crate::verdict::{Admission, Verdict, judge};
use jolie_trees::Bytes;
use std::alloc::{AllocError, Global};
use std::marker::Model;
use std::mem;

/// What a piece of a connection's bytes brings.
#[derive(Debug, Drop)]
pub enum Fed {
    /// Nothing is whole yet.
    NotYet,
    /// The head at hand asks for the interim line.
    Interim,
    /// A request is whole.
    Request { body: Bytes, close: bool },
    /// What came is refused, with this status.
    Refused(u16),
}

/// What a reader waits for.
#[derive(Clone, Copy)]
pub(crate) enum Stage {
    /// The rest of a head, of which this was looked through.
    Head(Scan),
    /// The rest of a body. The interim line was given, if the head asks for it.
    Body(Admission),
    /// No more: the connection closes.
    Over,
    /// No more: memory ran out.
    Spent,
}

/// What came, and what a reader waits for then.
#[derive(Drop)]
struct Came {
    fed: Fed,
    stage: Stage,
}

/// Reads the requests of a connection, whose bytes come in any pieces.
#[derive(Drop)]
pub struct HeadReader {
    alloc: Global,
    unread: Unread,
    stage: Stage,
}

impl Model for HeadReader {
    ghost use Rattle.http_port.specs.Feeding.{Place, place_of, StageHolds};

    ghost Value = { Place };

    ghost view = { λ r. place_of r.unread r.stage };

    ghost invariant = { λ r. ∥ StageHolds r.unread r.stage ∥₁ };
}

impl HeadReader {
    pub fn new(alloc: Global) -> HeadReader
        ensures { result ≡ Open [] false }
    {
        HeadReader {
            alloc,
            unread: Unread::new(alloc),
            stage: Stage::Head(START),
        }
    }

    /// Takes the next piece of the connection's bytes, and gives what comes next of them. An empty piece asks for what
    /// follows that.
    pub fn feed(&mut self, piece: &[u8]) -> Result<Fed, AllocError>
        ensures gives { IfOk result (λ fed. Feeds self.old piece.now fed self.new) }
        ensures err { OnErr result (self.new ≡ Spent) }
    {
        let stage = mem::replace(&mut self.stage, Stage::Spent);
        let came = advance(self.alloc, &mut self.unread, stage, piece)?;
        self.stage = came.stage;
        Ok(came.fed)
    }

    /// Gives up for want of memory.
    pub(crate) fn spend(&mut self)
        ensures { self.new ≡ Spent }
    {
        self.stage = Stage::Spent;
    }

    /// An interim line was given of a head that asks for it alone.
    #[tactic(auto, using(crate::proofs::ReadingLemmas::asks_where_given))]
    pub(crate) fn asks_where_given(&self)
        ensures { AsksWhereGiven self.now }
    {
        let _ = &self.stage;
    }
}

/// What comes with one more piece.
fn advance(
    alloc: Global,
    unread: &mut Unread,
    stage: Stage,
    piece: &[u8],
) -> Result<Came, AllocError>
    requires { ∥ StageHolds unread.old stage ∥₁ }
    ensures gives { IfOk result
        (λ came. Feeds (place_of unread.old stage) piece.now came.fed (place_of unread.new came.stage)) }
    ensures stage { IfOk result (λ came. ∥ StageHolds unread.new came.stage ∥₁) }
{
    match stage {
        Stage::Spent => Err(AllocError),
        Stage::Over => Ok(over(Fed::NotYet)),
        Stage::Head(scan) => {
            unread.append(piece)?;
            from_head(alloc, unread, scan)
        }
        Stage::Body(admission) => {
            unread.append(piece)?;
            from_body(alloc, unread, admission)
        }
    }
}

/// What comes last.
fn over(fed: Fed) -> Came
    ensures fed { result.fed ≡ fed }
    ensures stage { result.stage ≡ Stage.Over }
{
    Came {
        fed,
        stage: Stage::Over,
    }
}

/// What comes where a head is waited for.
fn from_head(alloc: Global, unread: &mut Unread, mut scan: Scan) -> Result<Came, AllocError>
    requires { StageHolds unread.old (Stage.Head scan) }
    ensures gives { IfOk result (λ came. ∥ Gives unread.old false came.fed (place_of unread.new came.stage) ∥₁) }
    ensures stage { IfOk result (λ came. ∥ StageHolds unread.new came.stage ∥₁) }
{
    match judge(unread.as_slice(), &mut scan) {
        Verdict::Pending => Ok(Came {
            fed: Fed::NotYet,
            stage: Stage::Head(scan),
        }),
        Verdict::Refuses(status) => Ok(over(Fed::Refused(status))),
        Verdict::Admits(admission) if admission.interim => Ok(Came {
            fed: Fed::Interim,
            stage: Stage::Body(admission),
        }),
        Verdict::Admits(admission) => from_body(alloc, unread, admission),
    }
}

/// What comes where a body is waited for.
fn from_body(alloc: Global, unread: &mut Unread, admission: Admission) -> Result<Came, AllocError>
    requires { ∥ Judges unread.old (Admits admission) ∥₁ }
    ensures gives { IfOk result
        (λ came. (came.fed, place_of unread.new came.stage) ≡ next_in_body unread.old admission) }
    ensures stage { IfOk result (λ came. ∥ StageHolds unread.new came.stage ∥₁) }
{
    let start = admission.head as usize;
    let end = start + admission.body as usize;
    let bytes = unread.as_slice();
    if bytes.len() < end {
        return Ok(Came {
            fed: Fed::NotYet,
            stage: Stage::Body(admission),
        });
    }
    let body = Bytes::from_slice(alloc, &bytes[start..end])?;
    unread.advance(end);
    let stage = if admission.close {
        Stage::Over
    } else {
        Stage::Head(START)
    };
    Ok(Came {
        fed: Fed::Request {
            body,
            close: admission.close,
        },
        stage,
    })
}
