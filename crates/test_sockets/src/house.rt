//! Doors, the wires that came at them, and their guests.

use crate::guests::Guests;
use outside_doors::{Accept, Door, Doors};
use outside_polling::{PollWire, Ready};
use outside_socket_doors::{DoorWire, Patience, SocketDoor, SocketDoors};
use std::alloc::{AllocError, Global};
use std::io::{Eprint, PipeReader, PipeWriter};
use std::net::{Net, SocketAddr};
use std::os::fd::AsRawFd;
use std::rt::Clock;
use std::time::{Duration, Instant};

/// How often something is tried that is not there yet, with a rest between.
const TRIES: u32 = 200;

/// The milliseconds of a rest.
const REST: u64 = 100;

/// The fewest milliseconds of a rest that did not end at once.
const LASTING: u128 = 20;

/// Doors with all that is theirs. A word is about the last of each kind, where it does not say *first*.
#[derive(Drop)]
pub struct House<H: Net + Clock + Eprint + Copy + Drop> {
    alloc: Global,
    host: H,
    doors: SocketDoors<H>,
    open: Vec<SocketDoor<H>>,
    wires: Vec<DoorWire<H>>,
    guests: Guests<H>,
    filled: usize,
    /// The input whose end closes the doors, and what holds it open.
    input: PipeReader,
    hold: Option<PipeWriter>,
}

impl<H: Net + Clock + Eprint + Copy + Drop> House<H> {
    /// A house without a door, whose guests are waited for so many milliseconds.
    pub fn new(alloc: Global, host: H, patience: u32, input: (PipeReader, PipeWriter)) -> House<H> {
        let time = Duration::from_millis(u64::from(patience));
        let patience = Patience {
            idle: time,
            request: time,
            answer: time,
            rest: Duration::from_millis(REST),
        };
        let (input, hold) = input;
        House {
            alloc,
            host,
            doors: SocketDoors::new(alloc, host, patience, Some(input.as_raw_fd())),
            open: Vec::new(alloc),
            wires: Vec::new(alloc),
            guests: Guests::new(alloc, host),
            filled: 0,
            input,
            hold: Some(hold),
        }
    }

    /// What comes of a word.
    pub fn follow(&mut self, word: &str) -> Result<String, AllocError> {
        let (verb, rest) = word.split_once(' ').unwrap_or((word, ""));
        match verb {
            "open" => self.open(rest),
            "come" => self.come(rest),
            "pass" => self.pass(rest.parse().unwrap_or(0)),
            "look" => self.accept(rest, 1),
            "accept" => self.accept(rest, TRIES),
            "rest" => self.rest(),
            "doze" => self.doze(),
            "shut" => self.shut(),
            "glance" => self.read(1),
            "read" => self.read(TRIES),
            "write" => self.write(rest.as_bytes()),
            "fill" => self.fill(),
            "close" => self.close(),
            "back" => self.back(),
            "send" => self.guests.send(rest.as_bytes()),
            "get" => self.guests.get(),
            "take" => self.guests.take(self.filled),
            "leave" => self.guests.leave(),
            "go" => self.guests.go(),
            "let" => self.let_go(),
            _ => self.told(),
        }
    }

    fn say(&self, text: &str) -> Result<String, AllocError> {
        String::from_str(self.alloc, text)
    }

    /// Opens a door: where the last one is, where none can be, or else at a free port.
    fn open(&mut self, place: &str) -> Result<String, AllocError> {
        let location = match place {
            "again" => match self.address("") {
                Some(address) => format!(in self.alloc; "socket://{address}")?,
                None => return self.say("no door"),
            },
            "nowhere" => self.say("local")?,
            _ => self.say("socket://127.0.0.1:0")?,
        };
        match self.doors.open(location.as_str()) {
            Ok(door) => {
                self.open.push(door)?;
                self.say("opened")
            }
            Err(_) => self.say("unopened"),
        }
    }

    fn door(&mut self, which: &str) -> Option<&mut SocketDoor<H>> {
        match which {
            "first" => self.open.first_mut(),
            _ => self.open.last_mut(),
        }
    }

    fn address(&mut self, which: &str) -> Option<SocketAddr> {
        self.door(which)?.address().ok()
    }

    fn come(&mut self, which: &str) -> Result<String, AllocError> {
        match self.address(which) {
            Some(address) => self.guests.come(address),
            None => self.say("no door"),
        }
    }

    /// So many come one by one, are let in and go.
    fn pass(&mut self, count: u32) -> Result<String, AllocError> {
        for _ in 0..count {
            self.come("")?;
            let said = self.accept("", TRIES)?;
            if said.as_str() != "came" {
                return Ok(said);
            }
            self.back()?;
            self.guests.go()?;
        }
        self.say("passed")
    }

    /// Tries so often to let somebody in, with a rest between.
    fn accept(&mut self, which: &str, tries: u32) -> Result<String, AllocError> {
        for _ in 0..tries {
            let Some(door) = self.door(which) else {
                return self.say("no door");
            };
            match door.try_accept() {
                Ok(Accept::Came(wire)) => {
                    self.wires.push(wire)?;
                    return self.say("came");
                }
                Ok(Accept::NotYet) => {}
                Ok(Accept::Closed) => return self.say("closed"),
                Err(_) => return self.say("failed"),
            }
            if tries != 1 {
                self.rest()?;
            }
        }
        self.say("nobody yet")
    }

    fn rest(&mut self) -> Result<String, AllocError> {
        if let Some(door) = self.open.first_mut() {
            door.rest();
        }
        self.say("rested")
    }

    /// Rests, and says whether that lasted or ended at once.
    fn doze(&mut self) -> Result<String, AllocError> {
        let start = Instant::now(&self.host);
        self.rest()?;
        let end = Instant::now(&self.host);
        match (start, end) {
            (Ok(start), Ok(end)) if end.duration_since(start).as_millis() < LASTING => {
                self.say("woken")
            }
            _ => self.say("dozed"),
        }
    }

    fn shut(&mut self) -> Result<String, AllocError> {
        if let Some(door) = self.open.pop() {
            self.doors.door_back(door);
        }
        self.say("shut")
    }

    /// Tries so often to read, with a rest between.
    fn read(&mut self, tries: u32) -> Result<String, AllocError> {
        let mut bytes = [0_u8; 64];
        for _ in 0..tries {
            let Some(wire) = self.wires.last_mut() else {
                return self.say("no wire");
            };
            match wire.try_read(&mut bytes) {
                Ok(Ready::Done(0)) => return self.say("end"),
                Ok(Ready::Done(count)) => {
                    let text = std::str::from_utf8(&bytes[..count]).unwrap_or("?");
                    return format!(in self.alloc; "read {text}");
                }
                Ok(Ready::NotYet) => {}
                Err(_) => return self.say("failed"),
            }
            if tries != 1 {
                self.rest()?;
            }
        }
        self.say("nothing yet")
    }

    /// Tries to write, with a rest between.
    fn write(&mut self, bytes: &[u8]) -> Result<String, AllocError> {
        for _ in 0..TRIES {
            let Some(wire) = self.wires.last_mut() else {
                return self.say("no wire");
            };
            match wire.try_write(bytes) {
                Ok(Ready::Done(count)) => return format!(in self.alloc; "wrote {count}"),
                Ok(Ready::NotYet) => {}
                Err(_) => return self.say("failed"),
            }
            self.rest()?;
        }
        self.say("no room yet")
    }

    /// Writes until there is no room.
    fn fill(&mut self) -> Result<String, AllocError> {
        for _ in 0..1_000_000 {
            let Some(wire) = self.wires.last_mut() else {
                return self.say("no wire");
            };
            match wire.try_write(&[b'x'; 4_096]) {
                Ok(Ready::Done(count)) => self.filled = self.filled.saturating_add(count),
                Ok(Ready::NotYet) => return self.say("full"),
                Err(_) => return self.say("failed"),
            }
        }
        self.say("not full")
    }

    fn close(&mut self) -> Result<String, AllocError> {
        if let Some(wire) = self.wires.last_mut() {
            wire.close();
        }
        self.say("closed")
    }

    /// Gives the wire back, and says what is told of it: at which door it came, whether a read failed, a write did, or
    /// a read told the end.
    fn back(&mut self) -> Result<String, AllocError> {
        if let Some(wire) = self.wires.pop() {
            self.doors.wire_back(wire);
        }
        match self.doors.returned().last() {
            Some(wire) => {
                let lost = if wire.is_lost() { " lost" } else { "" };
                let cut = if wire.is_cut() { " cut" } else { "" };
                let ended = if wire.has_ended() { " ended" } else { "" };
                format!(in self.alloc; "of door {}{lost}{cut}{ended}", wire.door())
            }
            None => self.say("no wire"),
        }
    }

    /// Lets go of the input, which ends.
    fn let_go(&mut self) -> Result<String, AllocError> {
        self.hold = None;
        self.say("let go")
    }

    /// What is counted.
    fn told(&mut self) -> Result<String, AllocError> {
        let counts = self.doors.counts();
        let (opened, ended, given) = (counts.opened(), counts.doors_ended(), counts.wires_given());
        let (back, lost, cut) = (counts.wires_back(), counts.wires_lost(), counts.wires_cut());
        let doors = format!(in self.alloc;
            "opened {opened} ended {ended} failed {}",
            self.doors.faults()
        )?;
        format!(in self.alloc; "{doors} gave {given} back {back} lost {lost} cut {cut}")
    }
}
