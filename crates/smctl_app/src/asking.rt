ghost use Rattle.std.specs.Prelude.{map, string_bytes, IfErr};
ghost use Rattle.smctl_app.specs.Requests.{IsOfTask, IsRefused, IsUnnamed};
ghost use Rattle.smctl_app.specs.Talking.{Adds, SendsFor};

use crate::clients::{give, show_plain, show_table, wait_for_end};
use crate::connection::ControlConnection;
use crate::control::Control;
use crate::fault::Fault;
use crate::request::{Task, read_request};
use program_frame::StandardConsole;
use sm_world::Console;
use std::alloc::Global;
use std::env;
use std::env::VarError;
use std::io::IsTerminal;

/// Where `smd-session` puts the control socket: in the user's folder for what lives no longer than a login.
fn control_of_login(rt: &HostRuntime) -> Result<String, Fault>
    ensures none { IfErr result IsUnnamed }
{
    let mut path = env::var(rt, "XDG_RUNTIME_DIR")?;
    path.push_str("/smd/control")?;
    Ok(path)
}

/// The control socket that the environment names, or else that of the user's own session.
fn named_control(rt: &HostRuntime) -> Result<String, Fault>
    ensures none { IfErr result IsUnnamed }
{
    match env::var(rt, "SMD_CONTROL") {
        Ok(path) => Ok(path),
        Err(VarError::NotPresent) => control_of_login(rt),
        Err(VarError::NotUnicode) => Err(Fault::NoControl),
        Err(VarError::OutOfMemory) => Err(Fault::NoMemory),
    }
}

/// Does what is asked for at the manager of this connection.
pub fn carry_out<C: Control, W: Console>(
    alloc: Global,
    task: &Task,
    connection: &mut C,
    console: &mut W,
    is_terminal: bool,
) -> Result<(), Fault>
    ensures sent { Adds (C.sent connection.old) (C.sent connection.new) (SendsFor task.now result) }
    ensures cause { IfErr result (IsOfTask task.now) }
{
    match task {
        Task::Order(line) => give(connection, console, line.as_slice()),
        Task::Table => show_table(alloc, connection, console),
        Task::Plain => show_plain(alloc, connection, console),
        Task::Logout => wait_for_end(alloc, connection, console, is_terminal),
    }
}

/// Does what the words ask for, which leave out the program's name: sends an order to the manager at the
/// control socket and prints its answer, or shows who is there, or stays until a logout has ended.
pub fn run(rt: &HostRuntime, words: &[String], console: &mut StandardConsole) -> Result<(), Fault>
    ensures cause { IfErr result (IsRefused (map string_bytes words.now)) }
{
    let alloc = rt.alloc();
    let request = read_request(alloc, words)?;
    let mut connection = match request.control {
        Some(path) => ControlConnection::open(*rt, path)?,
        None => ControlConnection::open(*rt, named_control(rt)?.as_str())?,
    };
    let is_terminal = rt.stdout().is_terminal();
    carry_out(alloc, &request.task, &mut connection, console, is_terminal)
}
