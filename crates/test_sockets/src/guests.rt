//! Those who come in at a door, over the loopback.

use std::alloc::{AllocError, Global};
use std::io::{Read, Write};
use std::net::{Net, OpenStream, Shutdown, SocketAddr, TcpStream};
use std::time::Duration;

/// How many seconds a guest waits for bytes.
const PATIENCE: u64 = 20;

/// The guests that are there, in the order in which they came.
#[derive(Drop)]
pub struct Guests<H: Net + Copy + Drop> {
    alloc: Global,
    host: H,
    there: Vec<H::Stream>,
}

impl<H: Net + Copy + Drop> Guests<H> {
    /// Nobody yet.
    pub fn new(alloc: Global, host: H) -> Guests<H> {
        Guests {
            alloc,
            host,
            there: Vec::new(alloc),
        }
    }

    /// Somebody more connects to an address.
    pub fn come(&mut self, address: SocketAddr) -> Result<String, AllocError> {
        match TcpStream::connect(&self.host, address) {
            Ok(stream) => {
                let _ = stream.set_read_timeout(Some(Duration::from_secs(PATIENCE)));
                self.there.push(stream)?;
                self.say("connected")
            }
            Err(_) => self.say("refused"),
        }
    }

    /// The last one sends bytes.
    pub fn send(&mut self, bytes: &[u8]) -> Result<String, AllocError> {
        let Some(guest) = self.there.last_mut() else {
            return self.say("nobody");
        };
        match guest.write_all(bytes) {
            Ok(()) => self.say("sent"),
            Err(_) => self.say("not sent"),
        }
    }

    /// The last one sends no more.
    pub fn leave(&mut self) -> Result<String, AllocError> {
        let Some(guest) = self.there.last() else {
            return self.say("nobody");
        };
        match guest.shutdown(Shutdown::Write) {
            Ok(()) => self.say("left"),
            Err(_) => self.say("not left"),
        }
    }

    /// The last one goes, and leaves what it was sent.
    pub fn go(&mut self) -> Result<String, AllocError> {
        self.there.pop();
        self.say("gone")
    }

    /// What the last one gets next.
    pub fn get(&mut self) -> Result<String, AllocError> {
        let mut bytes = [0_u8; 64];
        match self.there.last_mut() {
            Some(guest) => match guest.read(&mut bytes) {
                Ok(0) => self.say("end"),
                Ok(count) => {
                    let text = std::str::from_utf8(&bytes[..count]).unwrap_or("?");
                    format!(in self.alloc; "got {text}")
                }
                Err(_) => self.say("not got"),
            },
            None => self.say("nobody"),
        }
    }

    /// The last one takes so many bytes.
    pub fn take(&mut self, count: usize) -> Result<String, AllocError> {
        let mut bytes = [0_u8; 4_096];
        let mut left = count;
        for _ in 0..u64::MAX {
            if left == 0 {
                return self.say("taken");
            }
            let most = left.min(bytes.len());
            match self.there.last_mut() {
                Some(guest) => match guest.read(&mut bytes[..most]) {
                    Ok(0) | Err(_) => return self.say("not taken"),
                    Ok(count) => left = left.saturating_sub(count),
                },
                None => return self.say("nobody"),
            }
        }
        self.say("not taken")
    }

    fn say(&self, text: &str) -> Result<String, AllocError> {
        String::from_str(self.alloc, text)
    }
}
