ghost use Rattle.std.specs.Prelude.{◌≡◌, ℕ, Bool, true, false, None, Some, IfOk, OnOk, OnErr, option_and_then, option_map, slice_get};
ghost use Rattle.std.specs.Option.{option_copied};
ghost use Rattle.behaviour_tree.specs.Data.{ServicePart};
ghost use Rattle.behaviour_tree.specs.PartsView.{parts_of, parts_view, port_view};
ghost use Rattle.office_core.specs.declared.message.Call.{Call as SentCall};
ghost use Rattle.office_core.specs.declared.history.Act.TheVariants as act;
ghost use Rattle.office_core.specs.declared.history.Placed.TheVariants as at;
ghost use Rattle.office_core.specs.Past.{is_running};
ghost use Rattle.office_core.specs.Accepted.{accepted_in, handed_in, passed_on, passed_to, port_of};
ghost use Rattle.office_core.specs.Calls.{kind_of, next_call};
ghost use Rattle.office_core.specs.Legal.{is_acting, placed};
ghost use Rattle.office_plain.specs.View.{setting_of, past_in, Adds};
ghost use Rattle.office_plain.specs.Accepting.{placed_as, with_accepted};
ghost use Rattle.office_plain.specs.Entries.{entry, replied_entry};
ghost use Rattle.office_plain.specs.Ties.{Ties};

use crate::office::Office;
use crate::services::service_behind;
use behaviour_tree::{Parts, Port, Program, Reason, operation_sent};
use jolie_trees::Tree;
use office_core::{Act, Call, Entry, OutKind, Placed, Posted};
use reqresp_book::Origin;
use std::alloc::AllocError;

impl Office {
    /// A session sends a call: to a service of the program at once, or out.
    pub fn send(
        &mut self,
        session: u32,
        call: u32,
        port: u32,
        op: u32,
        value: Tree,
        wants: bool,
    ) -> Result<(), AllocError>
        requires acts { is_acting (setting_of self.old) (past_in self.old) session ≡ true }
        requires next { call ≡ next_call (past_in self.old) session }
        ensures added { OnOk result (Adds
            (replied_entry (setting_of self.old) (past_in self.old) session
            (act.Send call port op value wants at.Out))
            self.old self.new) }
        ensures ready { OnOk result (self.new.spent ≡ false) }
        ensures able { OnOk result (self.old.out_of_memory ≡ false) }
        ensures lasting { OnErr result (self.new.out_of_memory ≡ true) }
        ensures unchanged { OnErr result (Adds None self.old self.new) }
    {
        self.begin()?;
        let copy = value.copied()?;
        let kind = self.kind_of(session, port);
        let placed = self.place(session, call, port, op, &value)?;
        self.spent = true;
        self.kept.note_call(
            Call {
                session,
                number: call,
                port,
                op,
                value: copy,
                wants,
                placed,
            },
            kind,
        )?;
        self.log.put(Entry {
            actor: session,
            act: Act::Send {
                call,
                port,
                op,
                value,
                wants,
                placed,
            },
        });
        self.spent = false;
        self.out_of_memory = false;
        Ok(())
    }

    /// Where a session's message goes.
    fn place(
        &mut self,
        session: u32,
        call: u32,
        port: u32,
        op: u32,
        value: &Tree,
    ) -> Result<Placed, AllocError>
        requires ready { self.old.spent ≡ false }
        requires running { is_running (past_in self.old) ≡ true }
        ensures program { self.new.program ≡ self.old.program }
        ensures log { self.new.log ≡ self.old.log }
        ensures closed { self.new.closed ≡ self.old.closed }
        ensures lasting { self.new.out_of_memory ≡ self.old.out_of_memory }
        ensures placed { (wants : Bool) → IfOk result (λ p. p
            ≡ placed (setting_of self.old) (past_in self.old)
            (handed_in (setting_of self.old) (past_in self.old) session
            (act.Send call port op value.now wants at.Out))) }
        ensures kept { (wants : Bool) → IfOk result (λ p. Ties (setting_of self.old)
            (with_accepted (past_in self.old) (accepted_in (setting_of self.old) (past_in self.old)
            (entry session (act.Send call port op value.now wants p)))) self.new.kept) }
    {
        let Some(posted) = self.handed_in(session, port, op, value)? else {
            return Ok(Placed::Out);
        };
        let way = self.route(&posted)?;
        let origin = Origin::Session { session, call };
        Ok(placed_of(self.accepted(origin, &posted, way)?))
    }

    /// What a session hands to a service of the program; none where no such service is behind the port.
    fn handed_in(
        &self,
        session: u32,
        port: u32,
        op: u32,
        value: &Tree,
    ) -> Result<Option<Posted>, AllocError>
        requires { self.now.spent ≡ false }
        ensures { (k : ℕ) (wants : Bool) → IfOk result (λ q. q
            ≡ handed_in (setting_of self.now) (past_in self.now) session
            (act.Send k port op value.now wants at.Out)) }
    {
        match self.port_of(session, port) {
            Some(port) => passed_on(&self.program, port, op, value),
            None => Ok(None),
        }
    }

    /// A call goes to the console where its port is behind those of its service, else elsewhere.
    fn kind_of(&self, session: u32, port: u32) -> OutKind
        requires { self.now.spent ≡ false }
        ensures { (c : SentCall) → c.session ≡ session → c.port ≡ port
            → result ≡ kind_of (setting_of self.now) (past_in self.now) c }
    {
        match self.port_of(session, port) {
            Some(_) => OutKind::Remote,
            None => OutKind::Console,
        }
    }

    /// The port of a number of a session's service.
    fn port_of(&self, session: u32, port: u32) -> Option<&Port>
        requires { self.now.spent ≡ false }
        ensures { option_map port_view (option_copied result)
            ≡ port_of (setting_of self.now) (past_in self.now) session port }
    {
        match self.kept.sessions.get(session as usize) {
            Some(row) => port_at(self.program.parts(), row.service, port),
            None => None,
        }
    }
}

/// The port of a number of the service of a number.
fn port_at(parts: &Parts, service: u32, port: u32) -> Option<&Port>
    ensures { option_map port_view (option_copied result)
        ≡ option_and_then (λ (d : ServicePart). slice_get d.ports port)
        (slice_get (parts_view parts.now).services service) }
{
    match parts.services.get(service as usize) {
        Some(service) => service.ports.get(port as usize),
        None => None,
    }
}

/// A value for an operation of a port, as the service of the program behind the port is handed it.
fn passed_on(
    program: &Program,
    port: &Port,
    op: u32,
    value: &Tree,
) -> Result<Option<Posted>, AllocError>
    ensures { IfOk result (λ q. q ≡ passed_on (parts_of program.now) (port_view port.now) op value.now) }
{
    match service_behind(program, port.location.as_str()) {
        Some(service) => passed_to(program.parts(), port, op, value, service),
        None => Ok(None),
    }
}

/// The same, as a service of that number is handed it.
fn passed_to(
    parts: &Parts,
    port: &Port,
    op: u32,
    value: &Tree,
    service: u32,
) -> Result<Option<Posted>, AllocError>
    ensures { IfOk result (λ q. q ≡ passed_to (parts_view parts.now) (port_view port.now) op value.now service) }
{
    match operation_sent(parts, port, op) {
        Some(operation) => Ok(Some(Posted {
            service,
            op: operation.name.copied()?,
            value: value.copied()?,
        })),
        None => Ok(None),
    }
}

/// Where a message that a service of the program was handed went.
fn placed_of(number: Result<u32, Reason>) -> Placed
    ensures { result ≡ placed_as number }
{
    match number {
        Ok(number) => Placed::At(number),
        Err(reason) => Placed::Refused(reason),
    }
}
