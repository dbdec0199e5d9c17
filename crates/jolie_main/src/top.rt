//! What the words of the command line ask for is done.

ghost use Rattle.std.specs.Prelude.{◌≡◌, ◌<◌, IfOk, [], drop, length, map};
ghost use Rattle.main_commands.specs.declared.words.Words.{Words as Said};
ghost use Rattle.main_commands.specs.Usage.{IsUnderstood, spelled};
ghost use Rattle.behaviour_tree.specs.PartsView.{parts_of};
ghost use Rattle.outside_traits.specs.Told.{FilesTold, SinkTold, SourceTold};
ghost use Rattle.outside_doors.specs.Returns.{DoorsTold};
ghost use Rattle.run_theorem.specs.Theorem.{IsDoored, IsLined};
ghost use Rattle.jolie_main.specs.Outside.{ByFirst};
ghost use Rattle.jolie_main.specs.Headline.{Obeys, Promises, Runs, Serves};

use crate::explain::{explain_text, file_failed};
use crate::orders::load;
use crate::say::{refuse, show_usage_error, tell};
use crate::show::{check_text, print_text};
use crate::world::{Telling, World};
use behaviour_tree::Program;
use check_verdicts::program_in;
use main_commands::{Action, Command, Words, understood};
use outside_doors::Doors;
use outside_links::Link;
use outside_traits::{CallError, Files, Sink, Source};
use run_doors::run_doors;
use run_lines::run_lines;
use run_theorem::Ended;
use session_term_turns::Seated;
use std::alloc::{AllocError, Global};

/// The most bytes that are read of a file: one more than a text may have, so that one that is too long shows.
const MOST: u64 = 1_048_577;

/// Does what the words of the command line say: `check FILE` says whether the file is a program, `explain FILE` says in
/// words why it is none, or what is likely not meant in it, `print FILE` prints its definitions, `run FILE` runs its
/// services over the lines of the input, and `serve FILE` runs them over the connections that come in at the doors of
/// their ports. Calls to services elsewhere go by the first link, and console output goes to the notes. `load N` runs N
/// orders of a shop in memory, and says how they went.
///
/// The status is 0 where all that was asked for was done, 1 for a usage error, 2 where the file can't be read, 3 for a
/// file that is refused, 4 where the input failed, 5 where the output or the notes failed, 7 where a door could not be
/// opened or failed, and 6 where none of these failed and a session used its whole budget of events and could act all
/// the same.
pub fn run<F: Files, S: Source, K: Sink, N: Sink, D: Doors, L: Link>(
    alloc: Global,
    words: &[String],
    world: &mut World<F, S, K, N, D, L>,
) -> Result<Ended, AllocError>
    requires link { 0 < length world.old.links.items }
    // The headline.
    ensures promises { IfOk result (λ ended. (said : Said) × IsUnderstood (spelled words.now) said
        × Promises ⟦<World<F, S, K, N, D, L> as Telling>⟧.made said (F.held world.old.files) ended
        (record {
          before = ⟦<World<F, S, K, N, D, L> as Telling>⟧.told world.old;
          now = ⟦<World<F, S, K, N, D, L> as Telling>⟧.told world.new;
        })) }
    ensures others { drop 1 world.new.links.items ≡ drop 1 world.old.links.items }
{
    match understood(alloc, words)? {
        Words::Command(command) => obey(alloc, &command, world),
        Words::Load(lines) => load(alloc, lines, &mut world.output),
        Words::Help(text) => Ok(tell(alloc, text.as_str().as_bytes(), &mut world.output)),
        Words::UsageError(text) => {
            Ok(show_usage_error(alloc, text.as_str().as_bytes(), &mut world.notes))
        }
    }
}

/// Does a command over its file.
fn obey<F: Files, S: Source, K: Sink, N: Sink, D: Doors, L: Link>(
    alloc: Global,
    command: &Command,
    world: &mut World<F, S, K, N, D, L>,
) -> Result<Ended, AllocError>
    requires link { 0 < length world.old.links.items }
    ensures obeyed { IfOk result
        (λ ended. Obeys ⟦<World<F, S, K, N, D, L> as Telling>⟧.made command.now
        (F.held world.old.files command.now.file) ended
        (record {
          before = ⟦<World<F, S, K, N, D, L> as Telling>⟧.told world.old;
          now = ⟦<World<F, S, K, N, D, L> as Telling>⟧.told world.new;
        })) }
    ensures others { drop 1 world.new.links.items ≡ drop 1 world.old.links.items }
{
    let text = match world.files.read(command.file.as_str(), MOST) {
        Ok(text) => text,
        Err(CallError::Failed) => return file_failed(alloc, command, &mut world.output),
        Err(CallError::Memory(cause)) => return Err(cause),
    };
    match command.action {
        Action::Check => check_text(alloc, &text, &mut world.output),
        Action::Explain => { explain_text(alloc, command.file.as_str(), &text, &mut world.output) }
        Action::Print => print_text(alloc, &text, &mut world.output),
        Action::Run => run_text(
            alloc,
            &text,
            command,
            &mut world.input,
            &mut world.output,
            &mut world.notes,
            &mut world.links,
        ),
        Action::Serve => serve_text(
            alloc,
            &text,
            command,
            &mut world.output,
            &mut world.notes,
            &mut world.doors,
            &mut world.links,
        ),
    }
}

/// Runs the program that a text is, by the first link.
fn run_text<S: Source, K: Sink, N: Sink, L: Link>(
    alloc: Global,
    text: &[u8],
    command: &Command,
    input: &mut S,
    output: &mut K,
    notes: &mut N,
    links: &mut Vec<L>,
) -> Result<Ended, AllocError>
    requires link { 0 < length links.old.items }
    ensures runs { (files : FilesTold) (doors : DoorsTold) → IfOk result (λ ended. Runs command.now text.now ended
        (record {
          before = record {
            files = files;
            input = S.told input.old;
            output = K.told output.old;
            notes = N.told notes.old;
            doors = doors;
            links = map (λ l. L.told l) links.old.items;
          };
          now = record {
            files = files;
            input = S.told input.new;
            output = K.told output.new;
            notes = N.told notes.new;
            doors = doors;
            links = map (λ l. L.told l) links.new.items;
          };
        })) }
    ensures others { drop 1 links.new.items ≡ drop 1 links.old.items }
{
    let program = match program_in(alloc, text)? {
        Ok(program) => program,
        Err(refusal) => return refuse(alloc, &refusal, output),
    };
    run_program(alloc, program, text, command, input, output, notes, links)
}

/// Runs a program, whose text this is, by the first link.
fn run_program<S: Source, K: Sink, N: Sink, L: Link>(
    alloc: Global,
    program: Program,
    text: &[u8],
    command: &Command,
    input: &mut S,
    output: &mut K,
    notes: &mut N,
    links: &mut Vec<L>,
) -> Result<Ended, AllocError>
    requires some { 0 < length (parts_of program).services }
    requires link { 0 < length links.old.items }
    ensures lined { (files : FilesTold) (doors : DoorsTold) → IfOk result (λ ended. ByFirst
        (λ run. IsLined (record {
          parts = parts_of program;
          text = text.now;
          budget = command.now.budget;
          picks = command.now.picks;
        }) run ended)
        (record {
          before = record {
            files = files;
            input = S.told input.old;
            output = K.told output.old;
            notes = N.told notes.old;
            doors = doors;
            links = map (λ l. L.told l) links.old.items;
          };
          now = record {
            files = files;
            input = S.told input.new;
            output = K.told output.new;
            notes = N.told notes.new;
            doors = doors;
            links = map (λ l. L.told l) links.new.items;
          };
        })) }
    ensures others { drop 1 links.new.items ≡ drop 1 links.old.items }
{
    run_lines::<Seated, S, K, N, L>(
        alloc,
        program,
        text,
        input,
        output,
        notes,
        &mut links[0],
        command.budget,
        command.picks.as_slice(),
    )
}

/// Runs the program that a text is over the doors of its ports, by the first link.
fn serve_text<K: Sink, N: Sink, D: Doors, L: Link>(
    alloc: Global,
    text: &[u8],
    command: &Command,
    output: &mut K,
    notes: &mut N,
    doors: &mut D,
    links: &mut Vec<L>,
) -> Result<Ended, AllocError>
    requires link { 0 < length links.old.items }
    ensures serves { (files : FilesTold) (input : SourceTold) → IfOk result (λ ended. Serves
        (λ line. (wire : D.D.W) × (line ≡ (D.D.W.told wire).wire))
        command.now text.now ended
        (record {
          before = record {
            files = files;
            input = input;
            output = K.told output.old;
            notes = N.told notes.old;
            doors = D.told doors.old;
            links = map (λ l. L.told l) links.old.items;
          };
          now = record {
            files = files;
            input = input;
            output = K.told output.new;
            notes = N.told notes.new;
            doors = D.told doors.new;
            links = map (λ l. L.told l) links.new.items;
          };
        })) }
    ensures others { drop 1 links.new.items ≡ drop 1 links.old.items }
{
    let program = match program_in(alloc, text)? {
        Ok(program) => program,
        Err(refusal) => return refuse(alloc, &refusal, output),
    };
    serve_program(alloc, program, text, command, notes, doors, links)
}

/// Runs a program, whose text this is, over the doors of its ports, by the first link.
fn serve_program<N: Sink, D: Doors, L: Link>(
    alloc: Global,
    program: Program,
    text: &[u8],
    command: &Command,
    notes: &mut N,
    doors: &mut D,
    links: &mut Vec<L>,
) -> Result<Ended, AllocError>
    requires some { 0 < length (parts_of program).services }
    requires link { 0 < length links.old.items }
    ensures doored { (files : FilesTold) (input : SourceTold) (output : SinkTold) → IfOk result (λ ended. ByFirst
        (λ run. IsDoored
        (λ line. (wire : D.D.W) × (line ≡ (D.D.W.told wire).wire))
        command.now.connections (record { parts = parts_of program; text = text.now; budget = command.now.budget; picks = [] }) run ended)
        (record {
          before = record {
            files = files;
            input = input;
            output = output;
            notes = N.told notes.old;
            doors = D.told doors.old;
            links = map (λ l. L.told l) links.old.items;
          };
          now = record {
            files = files;
            input = input;
            output = output;
            notes = N.told notes.new;
            doors = D.told doors.new;
            links = map (λ l. L.told l) links.new.items;
          };
        })) }
    ensures others { drop 1 links.new.items ≡ drop 1 links.old.items }
{
    run_doors::<Seated, D, N, L>(
        alloc,
        program,
        text,
        doors,
        notes,
        &mut links[0],
        command.budget,
        command.connections,
    )
}
