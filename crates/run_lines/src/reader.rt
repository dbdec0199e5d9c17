//! The postings of the lines of a source.

ghost use Rattle.std.specs.Prelude.{◌≡◌, ℕ, ◌<◌, ◌+◌, ◌++◌, ◌∷◌, ◌||◌, [], false, true, length, nat_le, take, drop, List, IfOk, OnOk, OnErr, MatchResult};
ghost use Rattle.behaviour_tree.specs.Data.{ProgramParts};
ghost use Rattle.jsonrpc_text.specs.declared.message.Read.{Read as Sent};
ghost use Rattle.run_theorem.specs.Exchange.{Received};
ghost use Rattle.run_theorem.specs.Calls.{most_postings, Came};
ghost use Rattle.run_lines.specs.Passing.{nothing_read, read_in, IsLine};
ghost use Rattle.run_lines.specs.Reading.{Input, input_of, Fails, HasReceived};
ghost use Rattle.run_lines.specs.FrontSteps.{GivesLine};

use crate::lines::Lines;
use crate::next_line::{Step, next_line};
use jsonrpc_postings::posting_of;
use jsonrpc_text::{Read, read_message};
use outside_traits::Source;
use run_theorem::Next;
use sqlite_items::Items;
use std::alloc::{AllocError, Global};

/// The most postings of a front: the lines after them are passed over.
const MOST_POSTINGS: usize = 4_294_967_295;

/// What was read of a source, what its lines sent, whether nothing more is read, and whether the source failed.
#[derive(Drop)]
pub(crate) struct Reader {
    pub(crate) lines: Lines,
    pub(crate) reads: Items<Read>,
    pub(crate) over: bool,
    pub(crate) failed: bool,
}

impl Reader {
    pub(crate) fn new(alloc: Global) -> Reader
        ensures lines { result.lines ≡ nothing_read }
        ensures reads { result.reads ≡ [] }
        ensures over { result.over ≡ false }
        ensures failed { result.failed ≡ false }
    {
        Reader {
            lines: Lines::new(alloc),
            reads: Items::new(alloc),
            over: false,
            failed: false,
        }
    }

    /// The posting of the next line that is not blank. After want of memory nothing came.
    pub(crate) fn next<S: Source>(
        &mut self,
        alloc: Global,
        source: &mut S,
    ) -> Result<Next, AllocError>
        ensures came { (parts : ProgramParts) (first : Input) (before : Received) → 0 < length parts.services
            → HasReceived first (input_of self.old.lines self.old.reads self.old.over (S.told source.old).unread
            (S.told source.old).faults) before
            → before.ended ≡ false → MatchResult result
            (λ next. (now : Received) × HasReceived first
            (input_of self.new.lines self.new.reads self.new.over (S.told source.new).unread
            (S.told source.new).faults) now × Came parts next before now)
            (λ _. HasReceived first (input_of self.new.lines self.new.reads self.new.over (S.told source.new).unread
            (S.told source.new).faults) before) }
        ensures longer { (more : List Sent) × (self.new.reads ≡ self.old.reads ++ more) }
        ensures failed { (count : ℕ) → Fails self.old.failed count (S.told source.old).faults
            → Fails self.new.failed count (S.told source.new).faults }
    {
        if self.has_all() {
            return Ok(Next::End);
        }
        let step = next_line(source, &mut self.lines)?;
        match step {
            Step::Line(length) => self.give_line(alloc, length),
            Step::Last => self.give_last(alloc),
            Step::End => Ok(self.end()),
            Step::Cut => {
                self.failed = true;
                Ok(self.end())
            }
        }
    }

    /// Whether nothing more is read, or there were the most postings.
    fn has_all(&self) -> bool
        ensures { result ≡ (self.now.over || nat_le most_postings (length self.now.reads)) }
    {
        self.over || MOST_POSTINGS <= self.reads.len()
    }

    /// Gives the posting of the next line, which is so long, and passes it.
    fn give_line(&mut self, alloc: Global, length: usize) -> Result<Next, AllocError>
        requires { IsLine length self.old.lines.rest }
        ensures gives { IfOk result
            (λ next. GivesLine (take length self.old.lines.rest) next self.old.reads self.new.reads) }
        ensures passed { OnOk result (self.new.lines.passed ≡ self.old.lines.passed
            ++ take length self.old.lines.rest ++ 10 ∷ []) }
        ensures rest { OnOk result (self.new.lines.rest ≡ drop (length + 1) self.old.lines.rest) }
        ensures over { self.new.over ≡ self.old.over }
        ensures failed { self.new.failed ≡ self.old.failed }
        ensures lines { OnErr result (self.new.lines ≡ self.old.lines) }
        ensures reads { OnErr result (self.new.reads ≡ self.old.reads) }
    {
        let next = keep(alloc, self.lines.line(length), &mut self.reads)?;
        self.lines.pass(length);
        Ok(next)
    }

    /// Gives the posting of the last line, which has no end.
    fn give_last(&mut self, alloc: Global) -> Result<Next, AllocError>
        ensures gives { IfOk result (λ next. GivesLine self.old.lines.rest next self.old.reads self.new.reads) }
        ensures over { OnOk result (self.new.over ≡ true) }
        ensures lines { self.new.lines ≡ self.old.lines }
        ensures still { OnErr result (self.new.over ≡ self.old.over) }
        ensures failed { self.new.failed ≡ self.old.failed }
        ensures reads { OnErr result (self.new.reads ≡ self.old.reads) }
    {
        let next = keep(alloc, self.lines.rest(), &mut self.reads)?;
        self.over = true;
        Ok(next)
    }

    /// Reads nothing more.
    fn end(&mut self) -> Next
        ensures end { result ≡ Next.End }
        ensures over { self.new.over ≡ true }
        ensures failed { self.new.failed ≡ self.old.failed }
        ensures lines { self.new.lines ≡ self.old.lines }
        ensures reads { self.new.reads ≡ self.old.reads }
    {
        self.over = true;
        Next::End
    }

    /// All bytes that were read.
    pub(crate) fn into_bytes(self) -> Vec<u8>
        ensures { result.items ≡ read_in self.lines }
    {
        let Reader {
            lines,
            reads: _,
            over: _,
            failed: _,
        } = self;
        lines.into_bytes()
    }
}

/// Keeps what a line says, and gives its posting. After want of memory nothing was kept.
fn keep(alloc: Global, line: &[u8], reads: &mut Items<Read>) -> Result<Next, AllocError>
    ensures gives { IfOk result (λ next. GivesLine line.now next reads.old reads.new) }
    ensures err { OnErr result (reads.new ≡ reads.old) }
{
    let read = read_message(alloc, line)?;
    let posting = posting_of(alloc, 0, &read)?;
    reads.push(read)?;
    Ok(Next::Posting(posting))
}
