ghost use Rattle.std.specs.Prelude.{◌≡◌, ℕ, false, true, is_ok, if◌then◌else◌, IfOk, OnErr};
ghost use Rattle.correlation.specs.Index.{Mirrors, are_numbered, has_key, have_sets, keys_of, with_key};
ghost use Rattle.correlation.specs.Sessions.{are_sets, completed, if_bound, reply_by, write};

use crate::bind_reply::BindReply;
use crate::index::Index;
use crate::key::Sought;
use crate::session::{Session, SetOf, Sets, Values, Written};
use jolie_trees::Root;
use std::alloc::{AllocError, Global};
use std::sync::ledger::Ledger;

/// The correlation variables of sessions.
#[derive(Drop)]
pub struct Rows {
    sessions: Vec<Session>,
    index: Index,
    alloc: Global,
    ghost mirrors: { Mirrors index.sets.items sessions.items },
    ghost numbers: { are_numbered sessions.items ≡ true },
    ghost sets: { have_sets sessions.items ≡ true },
}

impl Rows {
    ghost use Rattle.std.specs.Prelude.{◌+◌, ◌*◌, ◌^◌, ◌-◌, ◌≤◌, ◌<◌, ◌++◌, [], ◌∷◌, List, Option, Some, None, length, slice_index_or, OnOk};
    ghost use Rattle.jolie_trees.specs.declared.root.Root.{Root};
    ghost use Rattle.correlation.specs.Sessions.{changed, freed, holder, is_born, is_live, key_of, newborn, reply_to, rows_of};
    ghost use Rattle.correlation.specs.View.{sessions_of};
    ghost use Rattle.correlation.specs.declared.session.Session.{Session};

    pub fn new(alloc: Global) -> Rows
        ensures { sessions_of result ≡ [] }
    {
        Rows {
            sessions: Vec::new(alloc),
            index: Index {
                sets: Vec::new(alloc),
            },
            alloc,
        }
    }

    /// Whether a session was born.
    pub fn is_born(&self, session: u32) -> bool
        ensures { result ≡ is_born (sessions_of self.now) session }
    {
        for row in &self.sessions {
            if row.number == session {
                return true;
            }
        }
        false
    }

    /// Whether a session was born and not released.
    pub fn is_live(&self, session: u32) -> bool
        ensures { result ≡ is_live (sessions_of self.now) session }
    {
        for row in &self.sessions {
            if row.number == session && !row.released {
                return true;
            }
        }
        false
    }

    /// The live session whose key in a set has the values that are sought. Of n keys it compares at most as many as n
    /// can be halved, and one more: 2 to the power of their number is at most 2 n + 1.
    pub fn find<L: Ledger>(&self, set: u32, sought: &mut Sought<'_, L>) -> Option<u32>
        ensures session { result ≡ holder (sessions_of self.now) set sought.old.values }
        ensures same { sought.new.values ≡ sought.old.values }
        ensures counted { sought.old.steps ≤ sought.new.steps }
        ensures cost { 2 ^ (sought.new.steps - sought.old.steps) ≤ 2 * length (rows_of (sessions_of self.now) set) +
            1 }
    {
        self.index.find(set, sought)
    }

    /// Notes a session and its sets.
    #[tactic(auto, using(crate::proofs::Mirrored::newborn_has_none))]
    pub fn birth(&mut self, session: u32, sets: &[SetOf]) -> Result<(), AllocError>
        requires new { is_born (sessions_of self.old) session ≡ false }
        requires sets { are_sets sets.now ≡ true }
        ensures ok { OnOk result (sessions_of self.new ≡ sessions_of self.old ++ newborn session sets.now ∷ []) }
        ensures err { OnErr result (sessions_of self.new ≡ sessions_of self.old) }
    {
        let copies = Sets::copied(self.alloc, sets)?;
        let newborn = Session {
            number: session,
            sets: copies,
            written: Values::new(self.alloc),
            released: false,
        };
        self.push(newborn)
    }

    /// Writes a value into a variable of a session, unless it was written before or completes a key that a live session
    /// has.
    pub fn bind(
        &mut self,
        session: u32,
        variable: u32,
        value: Root,
    ) -> Result<BindReply, AllocError>
        requires { is_live (sessions_of self.old) session ≡ true }
        ensures reply { IfOk result (λ r. reply_to (sessions_of self.old) session variable value ≡ Some r) }
        ensures ok { IfOk result (λ r. sessions_of self.new
            ≡ if_bound r (changed session (write variable value) (sessions_of self.old)) (sessions_of self.old)) }
        ensures err { OnErr result (sessions_of self.new ≡ sessions_of self.old) }
    {
        let place = self.place_of(session);
        if self.sessions[place].has(variable) {
            return Ok(BindReply::Fixed);
        }
        let written = Written { variable, value };
        bound(
            &mut self.sessions[place],
            &mut self.index,
            self.alloc,
            written,
        )
    }

    /// Frees the keys of a session.
    pub fn release(&mut self, session: u32)
        requires { is_live (sessions_of self.old) session ≡ true }
        ensures { sessions_of self.new ≡ changed session freed (sessions_of self.old) }
    {
        let place = self.place_of(session);
        self.sessions[place].released = true;
        self.index.free(session);
    }

    /// The place of a session. Mostly that is its number.
    fn place_of(&self, session: u32) -> usize
        requires { is_live self.now.sessions.items session ≡ true }
        ensures within { result < length self.now.sessions.items }
        ensures number { (d : Session) → (slice_index_or self.now.sessions.items result d).number ≡ session }
    {
        let number = session as usize;
        if number < self.sessions.len() && self.sessions[number].number == session {
            return number;
        }
        let mut place = 0;
        while self.sessions[place].number != session {
            place += 1;
        }
        place
    }

    /// Notes a session that has no key.
    fn push(&mut self, session: Session) -> Result<(), AllocError>
        requires new { is_born self.old.sessions.items session.number ≡ false }
        requires sets { are_sets session.sets ≡ true }
        requires keys { (n : ℕ) → key_of session n ≡ None }
        ensures ok { OnOk result (self.new.sessions.items ≡ self.old.sessions.items ++ session ∷ []) }
        ensures err { OnErr result (self.new.sessions.items ≡ self.old.sessions.items) }
    {
        self.sessions.push(session)?;
        Ok(())
    }
}

/// Writes a value into a variable that has none, unless this completes a key that a session has.
fn bound(
    session: &mut Session,
    index: &mut Index,
    alloc: Global,
    written: Written,
) -> Result<BindReply, AllocError>
    requires live { session.old.released ≡ false }
    requires sets { are_sets session.old.sets ≡ true }
    ensures reply { IfOk result (λ r. r
        ≡ reply_by (has_key index.old.sets.items (completed session.old written.variable written.value))) }
    ensures ok { IfOk result (λ r. session.new
        ≡ if_bound r (write written.variable written.value session.old) session.old) }
    ensures err { OnErr result (session.new ≡ session.old) }
    ensures keys { (n : ℕ) → keys_of index.new.sets.items n
        ≡ (if is_ok result
        then with_key (completed session.old written.variable written.value) session.old.number n
        (keys_of index.old.sets.items n)
        else keys_of index.old.sets.items n) }
{
    let count = session.written.len();
    let variable = written.variable;
    session.written.push(written)?;
    match index.claim(alloc, session, variable) {
        Ok(None) => Ok(BindReply::Bound),
        Ok(Some(holder)) => {
            session.written.truncate(count);
            Ok(BindReply::Held(holder))
        }
        Err(error) => {
            session.written.truncate(count);
            Err(error)
        }
    }
}
