ghost use Rattle.std.specs.Prelude.{IfOk, IfSome};
ghost use Rattle.unix_links.specs.Arrivals.{IsArrival};

use crate::reading::{Reading, is_passing, would_wait};
use crate::sources::Source;
use bytes::BytesMut;
use control_lines::{OrderRefusal, read_order, split_once};
use mio::net::UnixStream;
use mio::{Interest, Registry};
use owned_lists::NoMemory;
use session_watch::asks_who_is_there;
use sm_world::{Event, Order};
use std::alloc::Global;
use std::collections::BTreeMap;
use std::io::{Read, Write};

/// How many operators can be connected at once.
const OPERATOR_LIMIT: usize = 16;

/// How many bytes a line can have at most.
const LINE_LIMIT: usize = 4_096;

/// How many bytes are read at once.
const CHUNK: usize = 512;

/// What an operator said.
#[derive(Drop)]
enum Said {
    Order(Order),
    /// It asks who is there.
    Clients,
    BadLine,
    /// Nothing yet; the flag says whether there may be more to read.
    Part(bool),
    End,
}

/// An operator's connection.
#[derive(Drop)]
struct Operator {
    stream: UnixStream,
    /// What of its lines has come.
    held: BytesMut,
    /// A line is too long; it is skipped to its end.
    skips: bool,
}

impl Operator {
    /// The next line, where it has come whole. A last line without a newline is none: it may be cut.
    fn hear(&mut self, alloc: Global) -> Result<Said, NoMemory> {
        let Some((line, _rest)) = split_once(self.held.as_slice(), b'\n') else {
            return self.read();
        };
        let is_long = self.skips || line.len() > LINE_LIMIT;
        let order = read_order(alloc, line);
        let asks = asks_who_is_there(line);
        let length = line.len() + 1;
        self.held.advance(length);
        self.skips = false;
        match order {
            Err(OrderRefusal::NoMemory) => Err(NoMemory),
            Ok(order) if !is_long => Ok(Said::Order(order)),
            _ if asks && !is_long => Ok(Said::Clients),
            _ => Ok(Said::BadLine),
        }
    }

    /// Reads some bytes of a line.
    fn read(&mut self) -> Result<Said, NoMemory> {
        if self.held.len() > LINE_LIMIT {
            self.held.clear();
            self.skips = true;
        }
        let mut chunk = [0u8; CHUNK];
        match self.stream.read(&mut chunk) {
            Ok(count) if 0 < count && count <= CHUNK => {
                self.held.extend_from_slice(&chunk[..count])?;
                Ok(Said::Part(true))
            }
            Err(error) if would_wait(&error) => Ok(Said::Part(false)),
            Err(error) if is_passing(&error) => Ok(Said::Part(true)),
            _ => Ok(Said::End),
        }
    }

    /// Writes a line at once; false where it doesn't go out whole.
    fn write(&mut self, line: &[u8]) -> bool {
        match self.stream.write(line) {
            Ok(count) => count == line.len(),
            Err(_) => false,
        }
    }
}

/// The operators' connections, by their numbers.
#[derive(Drop)]
pub struct Operators {
    alloc: Global,
    open: BTreeMap<u32, Operator>,
    /// The number that was given last. None is given twice.
    last: u32,
    /// Whose order was told last, until another event is.
    asked: Option<u32>,
    /// Who asks who is there and has no answer yet.
    asking: Option<u32>,
}

impl Operators {
    pub fn new(alloc: Global) -> Operators {
        Operators {
            alloc,
            open: BTreeMap::new(alloc),
            last: 0,
            asked: None,
            asking: None,
        }
    }

    /// Takes in a new connection. One too many, or one that the system can't watch, is closed.
    pub fn add(&mut self, registry: &Registry, mut stream: UnixStream) -> Result<(), NoMemory> {
        let Some(number) = self.last.checked_add(1) else {
            return Ok(());
        };
        let token = Source::Operator(number).token();
        let is_full = self.open.len() >= OPERATOR_LIMIT;
        if is_full
            || registry
                .register(&mut stream, token, Interest::READABLE)
                .is_err()
        {
            return Ok(());
        }
        let operator = Operator {
            stream,
            held: BytesMut::new(self.alloc),
            skips: false,
        };
        self.open.insert(number, operator)?;
        self.last = number;
        Ok(())
    }

    /// Takes the next line of an operator, or reads on. A bad line is answered here.
    pub fn hear(&mut self, number: u32) -> Result<Reading, NoMemory>
        ensures size { IfOk result (λ reading. IfSome reading.event IsArrival) }
    {
        let Some(operator) = self.open.get_mut(&number) else {
            return Ok(Reading::nothing());
        };
        match operator.hear(self.alloc)? {
            Said::Order(order) => {
                self.asked = Some(number);
                Ok(Reading::one(Event::Operator(order)))
            }
            Said::Clients => {
                self.asking = Some(number);
                Ok(Reading::later())
            }
            Said::BadLine => {
                self.write(number, b"bad order\n");
                Ok(Reading::later())
            }
            Said::Part(true) => Ok(Reading::later()),
            Said::Part(false) => Ok(Reading::nothing()),
            Said::End => {
                let _ = self.open.remove(&number);
                Ok(Reading::nothing())
            }
        }
    }

    /// Who asks who is there. That one is to be answered.
    pub fn next_asking(&mut self) -> Option<u32> {
        self.asking.take()
    }

    /// Writes lines to an operator. One that doesn't take them whole is dropped.
    pub fn write(&mut self, number: u32, line: &[u8]) {
        let Some(operator) = self.open.get_mut(&number) else {
            return;
        };
        if !operator.write(line) {
            let _ = self.open.remove(&number);
        }
    }

    /// Answers the operator whose order was told last.
    pub fn answer(&mut self, line: &[u8]) {
        if let Some(number) = self.asked {
            self.write(number, line);
        }
    }

    /// What is printed from here on answers no order.
    pub fn forget(&mut self) {
        self.asked = None;
    }
}
