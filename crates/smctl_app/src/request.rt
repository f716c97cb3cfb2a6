ghost use Rattle.std.specs.Prelude.{◌≡◌, ◌∷◌, ◌↔◌, [], IsTrue, map, option_copied, string_bytes, IfErr, IfOk};
ghost use Rattle.smctl_app.specs.Requests.{Asks, AsksNothing, IsNoOrder, IsNoTask, IsOrderLine, SaysTask, spaced};

use crate::fault::Fault;
use control_lines::read_order;
use owned_lists::{NoMemory, Octets};
use program_frame::are_one_word;
use std::alloc::Global;

/// What is to be done.
#[derive(Debug, Drop)]
pub enum Task {
    /// The order with this line is given, and its answer printed.
    Order(Octets),
    /// Who is there is shown as a table.
    Table,
    /// Who is there is shown as plain lines.
    Plain,
    /// A logout is ordered, and its end waited for.
    Logout,
}

/// What the words ask for.
#[derive(Drop)]
pub struct Request<'a> {
    /// The control socket, where the words name one.
    pub control: Option<&'a str>,
    pub task: Task,
}

/// The words with one space between each two.
fn joined(alloc: Global, words: &[String]) -> Result<Octets, NoMemory>
    ensures { IfOk result (λ line. line ≡ spaced (map string_bytes words.now)) }
{
    let line = words.join(alloc, " ")?;
    Octets::from_slice(alloc, line.as_bytes())
}

/// The line of the order that these words say.
fn order_line(alloc: Global, words: &[String]) -> Result<Octets, Fault>
    ensures says { IfOk result (IsOrderLine (map string_bytes words.now)) }
    ensures none { IfErr result (IsNoOrder (map string_bytes words.now)) }
{
    let mut line = joined(alloc, words)?;
    let _order = read_order(alloc, line.as_slice())?;
    line.append(b"\n")?;
    Ok(line)
}

/// Whether the words are these two.
fn are_two_words(words: &[String], first: &str, second: &str) -> bool
    ensures { IsTrue result ↔ (map string_bytes words.now ≡ first.now ∷ second.now ∷ []) }
{
    if words.len() != 2 {
        return false;
    }
    words[0].as_str() == first && words[1].as_str() == second
}

/// What these words ask for.
fn read_task(alloc: Global, words: &[String]) -> Result<Task, Fault>
    ensures says { IfOk result (SaysTask (map string_bytes words.now)) }
    ensures none { IfErr result (IsNoTask (map string_bytes words.now)) }
{
    if are_one_word(words, "clients") {
        return Ok(Task::Table);
    }
    if are_two_words(words, "clients", "--plain") {
        return Ok(Task::Plain);
    }
    if are_two_words(words, "shutdown", "--wait") {
        return Ok(Task::Logout);
    }
    Ok(Task::Order(order_line(alloc, words)?))
}

/// Reads the words: `--control C` or nothing, and what is asked for.
pub fn read_request(alloc: Global, words: &[String]) -> Result<Request<'_>, Fault>
    ensures asks { IfOk result (λ request.
        Asks (map string_bytes words.now) (option_copied request.control) request.task) }
    ensures none { IfErr result (AsksNothing (map string_bytes words.now)) }
{
    if words.len() >= 2 && words[0].as_str() == "--control" {
        return Ok(Request {
            control: Some(words[1].as_str()),
            task: read_task(alloc, &words[2..])?,
        });
    }
    Ok(Request {
        control: None,
        task: read_task(alloc, words)?,
    })
}
