ghost use Rattle.std.specs.Prelude.{◌≡◌, ◌++◌, codes, decimal, IfOk, OnOk};
ghost use Rattle.session_answers.specs.Answers.{doing_text, status_text};

use owned_lists::{NoMemory, Octets};
use std::alloc::Global;

/// What the session is at.
#[derive(Clone, Copy, Debug)]
pub enum Doing {
    /// No round runs.
    Idle,
    /// A round runs that is no shutdown.
    Saving,
    /// A shutdown runs.
    ShuttingDown,
    /// A shutdown was agreed.
    Ending,
}

/// What the operator is told of the session.
#[derive(Clone, Copy, Debug)]
pub struct Status {
    /// How many connections are live.
    pub connections: u64,
    /// How many entries the book has.
    pub records: u64,
    /// How many commands are pending.
    pub pending: u64,
    /// The epoch of the run.
    pub epoch: u32,
    pub doing: Doing,
}

/// The line for the operator, without a newline: as `connections 2, records 3, pending 0, epoch 7,
/// idle`.
pub fn status_line(alloc: Global, status: &Status) -> Result<Octets, NoMemory>
    ensures { IfOk result (λ line. line ≡ status_text status.now) }
{
    let mut line = Octets::new(alloc);
    put_count(alloc, &mut line, b"connections ", status.connections)?;
    put_count(alloc, &mut line, b", records ", status.records)?;
    put_count(alloc, &mut line, b", pending ", status.pending)?;
    put_count(alloc, &mut line, b", epoch ", status.epoch.into())?;
    line.append(b", ")?;
    line.append(status.doing.text())?;
    Ok(line)
}

/// Adds a word and a number in decimal.
fn put_count(alloc: Global, line: &mut Octets, word: &[u8], count: u64) -> Result<(), NoMemory>
    ensures { OnOk result (line.new ≡ line.old ++ word.now ++ decimal count) }
{
    let number = count.to_string(alloc)?;
    line.append(word)?;
    line.append(number.as_bytes())
}

impl Doing {
    /// As the operator reads it.
    pub fn text(self) -> &'static [u8]
        ensures { result.now ≡ doing_text self }
    {
        match self {
            Doing::Idle => b"idle",
            Doing::Saving => b"saving",
            Doing::ShuttingDown => b"shutdown",
            Doing::Ending => b"ending",
        }
    }
}
