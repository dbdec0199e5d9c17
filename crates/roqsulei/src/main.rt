//! The program over the words of the command line, real files and the three streams.
#![tactic(auto)]

ghost use Rattle.std.specs.Prelude.{◌<◌, IfOk, length};

use http_link::HttpLink;
use jolie_main::{World, run};
use main_commands::status::{DONE, FILE_FAILED, OUT_OF_MEMORY, OUTPUT_FAILED, USAGE_ERROR};
use main_commands::{Words, understood};
use outside_doors::Counts;
use outside_socket_doors::{Patience, SocketDoors};
use outside_sockets::SocketDial;
use outside_traits::{Inputs, Outputs, Storage};
use std::alloc::{AllocError, Global};
use std::io::Read;
use std::net::Net;
use std::os::fd::{AsRawFd, RawFd};
use std::process::ExitCode;
use std::rt::Clock;
use std::time::Duration;
use std::{env, fs, io, mem};

/// What is wrong with words of which one is no UTF-8.
const NOT_UTF8: &str = "error: invalid UTF-8 was detected in one or more arguments\n\n\
    Usage: roqsulei <COMMAND>\n\n\
    For more information, try '--help'.";

/// The status of a run whose input failed.
const INPUT_FAILED: u8 = 4;

/// The status of a run in which a session used its whole budget and could have gone on.
const BUDGET_USED: u8 = 6;

/// The status of a run of which a door failed.
const DOOR_FAILED: u8 = 7;

/// How many seconds a call to a service elsewhere may take.
const LONGEST_TRIP: u64 = 30;

/// What the environment has where the end of the standard input closes the doors.
const HELD_BY_INPUT: &str = "ROQSULEI_HELD_BY_INPUT";

fn main(rt: HostRuntime) -> ExitCode {
    let alloc = rt.alloc();
    let words = match words_of(&rt) {
        Ok(words) => words,
        Err(error) => return ExitCode::from(status_without_words(&rt, &error)),
    };
    let links = match links(alloc, &rt) {
        Ok(links) => links,
        Err(_) => return ended(&rt, &words, OUT_OF_MEMORY),
    };
    let mut world = World {
        files: Storage::new(alloc, &rt),
        input: Inputs::new(rt.stdin()),
        output: Outputs::new(rt.stdout()),
        notes: Outputs::new(rt.stderr()),
        doors: SocketDoors::new(alloc, &rt, patience(), held_by(&rt)),
        links,
    };
    match run(alloc, &words, &mut world) {
        Ok(run) => {
            let status = run.status;
            // The system takes back all memory of what a run leaves at once.
            mem::forget(run);
            say_served(&rt, &words, world.doors.counts(), status);
            ended(&rt, &words, status)
        }
        Err(_) => ended(&rt, &words, OUT_OF_MEMORY),
    }
}

/// Says why a run ends that opened doors and came to its end, and how many connections it had. All is as it would be
/// where nothing can be said.
fn say_served(rt: &HostRuntime, words: &[String], counts: &Counts, status: u8) {
    if counts.opened() == 0 || !comes_to_its_end(status) {
        return;
    }
    let Ok(Words::Command(command)) = understood(rt.alloc(), words) else {
        return;
    };
    let came = counts.wires_back();
    let why = if counts.doors_ended() == counts.opened() {
        "no door is open any more"
    } else if came < u64::from(command.connections) {
        "no request came for very long"
    } else {
        "no further connection may come"
    };
    let _ = eprintln!(rt; "roqsulei: ended, since {why}; connections: {came}");
}

/// Whether a run of this status over doors went on until no more came.
fn comes_to_its_end(status: u8) -> bool {
    matches!(status, DONE | BUDGET_USED | DOOR_FAILED)
}

/// The end of the program with a status. Where nothing else says why, standard error does, in one line; of a door that
/// failed the doors have said it.
fn ended(rt: &HostRuntime, words: &[String], status: u8) -> ExitCode {
    // The status is the same where standard error takes nothing.
    let _ = say_why(rt, words, status);
    ExitCode::from(status)
}

/// Says why the program ends with a status, where no line did.
fn say_why(rt: &HostRuntime, words: &[String], status: u8) -> io::Result<()> {
    match status {
        FILE_FAILED => say_why_unread(rt, words),
        INPUT_FAILED => eprintln!(rt; "roqsulei: the standard input failed"),
        OUTPUT_FAILED => eprintln!(rt;
            "roqsulei: the standard output or the standard error failed"
        ),
        OUT_OF_MEMORY => eprintln!(rt; "roqsulei: out of memory"),
        _ => Ok(()),
    }
}

/// Says why the file can't be read: what the system says where it is asked again.
fn say_why_unread(rt: &HostRuntime, words: &[String]) -> io::Result<()> {
    let Ok(Words::Command(command)) = understood(rt.alloc(), words) else {
        return eprintln!(rt; "roqsulei: the file cannot be read");
    };
    let file = command.file.as_str();
    match begun(rt, file) {
        Ok(_) => eprintln!(rt; "roqsulei: {file}: cannot be read"),
        Err(error) => eprintln!(rt; "roqsulei: {file}: {error}"),
    }
}

/// Opens a file and reads its first byte.
fn begun(rt: &HostRuntime, file: &str) -> io::Result<usize> {
    let mut opened = fs::open(rt, file)?;
    let mut first = [0; 1];
    opened.read(&mut first)
}

/// How long those who come in at a door are waited for. One who says nothing holds up nobody, but has one of the places
/// of those that may be open at once.
fn patience() -> Patience {
    Patience {
        idle: Duration::from_secs(60),
        request: Duration::from_secs(30),
        answer: Duration::from_secs(30),
        rest: Duration::from_secs(1),
    }
}

/// The standard input, where its end is to close the doors: who starts the program asks for it by a word in the
/// environment, since the input of a program that serves is mostly at its end from the beginning.
fn held_by(rt: &HostRuntime) -> Option<RawFd> {
    match env::var(rt, HELD_BY_INPUT) {
        Ok(_) => Some(rt.stdin().as_raw_fd()),
        Err(_) => None,
    }
}

/// The links: one, over HTTP and the sockets of the system.
fn links<H: Net + Clock + Copy + Drop>(
    alloc: Global,
    host: H,
) -> Result<Vec<HttpLink<SocketDial<H>>>, AllocError>
    ensures { IfOk result (λ links. 0 < length links.items) }
{
    let dial = SocketDial::new(host, Duration::from_secs(LONGEST_TRIP));
    let mut links = Vec::new(alloc);
    links.push(HttpLink::new(alloc, dial))?;
    Ok(links)
}

/// The words after the program's name.
fn words_of(rt: &HostRuntime) -> io::Result<Vec<String>> {
    let mut words = Vec::new(rt.alloc());
    for word in env::args(rt)?.skip(1) {
        words.push(word)?;
    }
    Ok(words)
}

/// The status where the words can't be had: one of them is no UTF-8, or memory ran out.
fn status_without_words(rt: &HostRuntime, error: &io::Error) -> u8 {
    if error.kind() == io::ErrorKind::OutOfMemory {
        return OUT_OF_MEMORY;
    }
    // A usage error has its status also where nothing can be said of it.
    let _ = eprintln!(rt; "{NOT_UTF8}");
    USAGE_ERROR
}
