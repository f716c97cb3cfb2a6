ghost use Rattle.std.specs.Prelude.{◌≡◌, false, IfErr, IfOk, IsTrue};
ghost use Rattle.smctl_app.specs.Requests.{IsOutside, IsOfLogout};
ghost use Rattle.smctl_app.specs.Talking.{Adds, AreQuestions, clients_line, is_cancellation, SendsLogout, SendsOne, shows_over, shutdown_line, TellsEnd};

use crate::client_line::{ClientLine, read_client_line, read_count};
use crate::control::{Control, Look, Talk};
use crate::fault::Fault;
use crate::table::table_of;
use crate::waiting::{Course, Glance, Logout, read_course, waited_for};
use owned_lists::ListOf;
use sm_world::Console;
use std::alloc::Global;

/// A line that the manager answers, without its newline.
fn next_text<T: Talk>(alloc: Global, connection: &mut T) -> Result<String, Fault>
    ensures sent { T.sent connection.new ≡ T.sent connection.old }
    ensures seen { T.seen connection.new ≡ T.seen connection.old }
    ensures cause { IfErr result IsOutside }
{
    let line = connection.hear()?;
    match str::from_utf8(line.as_slice()) {
        Ok(text) => Ok(text.trim_end().to_string(alloc)?),
        Err(_) => Err(Fault::Unreadable),
    }
}

/// So many lines that the manager answers, each without its newline.
fn next_texts<T: Talk>(
    alloc: Global,
    connection: &mut T,
    count: u64,
) -> Result<ListOf<String>, Fault>
    ensures sent { T.sent connection.new ≡ T.sent connection.old }
    ensures seen { T.seen connection.new ≡ T.seen connection.old }
    ensures cause { IfErr result IsOutside }
{
    let mut lines = ListOf::new(alloc);
    for _ in 0..count {
        lines.push(next_text(alloc, connection)?)?;
    }
    Ok(lines)
}

/// The answer to the question who is there: the line of each client.
fn hear_clients<T: Talk>(alloc: Global, connection: &mut T) -> Result<ListOf<String>, Fault>
    ensures sent { T.sent connection.new ≡ T.sent connection.old }
    ensures seen { T.seen connection.new ≡ T.seen connection.old }
    ensures cause { IfErr result IsOutside }
{
    let head = next_text(alloc, connection)?;
    let Some(count) = read_count(head.as_str()) else {
        return Err(Fault::Unreadable);
    };
    next_texts(alloc, connection, count)
}

/// Asks who is there; gives the line of each client.
fn ask<T: Talk>(alloc: Global, connection: &mut T) -> Result<ListOf<String>, Fault>
    ensures sent { Adds (T.sent connection.old) (T.sent connection.new)
        (SendsOne clients_line result) }
    ensures seen { T.seen connection.new ≡ T.seen connection.old }
    ensures cause { IfErr result IsOutside }
{
    match connection.say(b"clients\n") {
        Ok(()) => hear_clients(alloc, connection),
        Err(fault) => Err(fault),
    }
}

/// What these lines tell.
fn read_lines(alloc: Global, lines: &[String]) -> Result<ListOf<ClientLine<'_>>, Fault>
    ensures { IfErr result IsOutside }
{
    let mut clients = ListOf::new(alloc);
    for line in lines {
        let Some(client) = read_client_line(line.as_str()) else {
            return Err(Fault::Unreadable);
        };
        clients.push(client)?;
    }
    Ok(clients)
}

/// Prints the manager's answer.
fn print_answer<T: Talk, W: Console>(connection: &mut T, console: &mut W) -> Result<(), Fault>
    ensures sent { T.sent connection.new ≡ T.sent connection.old }
    ensures cause { IfErr result IsOutside }
{
    let answer = connection.hear()?;
    console.print(answer.as_slice())?;
    Ok(())
}

/// Gives an order and prints its answer.
pub fn give<T: Talk, W: Console>(
    connection: &mut T,
    console: &mut W,
    line: &[u8],
) -> Result<(), Fault>
    ensures sent { Adds (T.sent connection.old) (T.sent connection.new)
        (SendsOne line.now result) }
    ensures cause { IfErr result IsOutside }
{
    match connection.say(line) {
        Ok(()) => print_answer(connection, console),
        Err(fault) => Err(fault),
    }
}

/// Prints each of these lines.
fn print_lines<W: Console>(console: &mut W, lines: &[String]) -> Result<(), Fault>
    ensures { IfErr result IsOutside }
{
    for line in lines {
        console.print(line.as_bytes())?;
        console.print(b"\n")?;
    }
    Ok(())
}

/// Prints the lines of those who are there.
pub fn show_plain<T: Talk, W: Console>(
    alloc: Global,
    connection: &mut T,
    console: &mut W,
) -> Result<(), Fault>
    ensures sent { Adds (T.sent connection.old) (T.sent connection.new)
        (SendsOne clients_line result) }
    ensures cause { IfErr result IsOutside }
{
    match ask(alloc, connection) {
        Ok(lines) => print_lines(console, lines.as_slice()),
        Err(fault) => Err(fault),
    }
}

/// Prints a table of the clients of these lines.
fn print_table<W: Console>(alloc: Global, console: &mut W, lines: &[String]) -> Result<(), Fault>
    ensures { IfErr result IsOutside }
{
    let clients = read_lines(alloc, lines)?;
    let table = table_of(alloc, clients.as_slice())?;
    console.print(table.as_bytes())?;
    Ok(())
}

/// Prints a table of those who are there.
pub fn show_table<T: Talk, W: Console>(
    alloc: Global,
    connection: &mut T,
    console: &mut W,
) -> Result<(), Fault>
    ensures sent { Adds (T.sent connection.old) (T.sent connection.new)
        (SendsOne clients_line result) }
    ensures cause { IfErr result IsOutside }
{
    match ask(alloc, connection) {
        Ok(lines) => print_table(alloc, console, lines.as_slice()),
        Err(fault) => Err(fault),
    }
}

/// Shows who is waited for: on a terminal in the place of what stood there, and else on a line of its
/// own where it has changed.
fn show_waiting<W: Console>(
    console: &mut W,
    is_terminal: bool,
    before: &str,
    text: &str,
) -> Result<(), Fault>
    ensures { IfErr result IsOutside }
{
    if before == text {
        return Ok(());
    }
    if is_terminal {
        console.print(b"\r\x1b[K")?;
        console.print(text.as_bytes())?;
    } else {
        console.print(text.as_bytes())?;
        console.print(b"\n")?;
    }
    Ok(())
}

/// What the manager answers to the question what the session is at.
fn hear_course<T: Talk>(alloc: Global, connection: &mut T) -> Result<Course, Fault>
    ensures sent { T.sent connection.new ≡ T.sent connection.old }
    ensures seen { T.seen connection.new ≡ T.seen connection.old }
    ensures cause { IfErr result IsOutside }
{
    let line = next_text(alloc, connection)?;
    match read_course(line.as_str()) {
        Some(course) => Ok(course),
        None => Err(Fault::Unreadable),
    }
}

/// What the session is at, while these are there. The manager prints a line for each `status`, so it is
/// asked for that only where they don't tell.
fn find_course<T: Talk>(
    alloc: Global,
    connection: &mut T,
    clients: &[ClientLine<'_>],
) -> Result<Course, Fault>
    ensures sent { Adds (T.sent connection.old) (T.sent connection.new) AreQuestions }
    ensures seen { T.seen connection.new ≡ T.seen connection.old }
    ensures cause { IfErr result IsOutside }
{
    if clients.iter().any(|client| client.leaves()) {
        return Ok(Course::Leaving);
    }
    match connection.say(b"status\n") {
        Ok(()) => hear_course(alloc, connection),
        Err(fault) => Err(fault),
    }
}

/// What these show of a logout, at what the session is at then.
fn look_of(alloc: Global, clients: &[ClientLine<'_>], course: Course) -> Result<Look, Fault>
    ensures { IfErr result IsOutside }
{
    Ok(Look {
        glance: Glance::of(clients, course),
        waited_for: waited_for(alloc, clients)?,
    })
}

/// Asks what the session is at, where the clients of these lines don't tell, and tells what that shows
/// of a logout.
fn look_among<T: Talk>(alloc: Global, connection: &mut T, lines: &[String]) -> Result<Look, Fault>
    ensures sent { Adds (T.sent connection.old) (T.sent connection.new) AreQuestions }
    ensures seen { T.seen connection.new ≡ T.seen connection.old }
    ensures cause { IfErr result IsOutside }
{
    let clients = read_lines(alloc, lines)?;
    match find_course(alloc, connection, clients.as_slice()) {
        Ok(course) => look_of(alloc, clients.as_slice(), course),
        Err(fault) => Err(fault),
    }
}

/// Asks who is there and what the session is at, and tells what that shows of a logout.
pub fn look_at<T: Talk>(alloc: Global, connection: &mut T) -> Result<Look, Fault>
    ensures sent { Adds (T.sent connection.old) (T.sent connection.new) AreQuestions }
    ensures seen { T.seen connection.new ≡ T.seen connection.old }
    ensures cause { IfErr result IsOutside }
{
    match ask(alloc, connection) {
        Ok(lines) => look_among(alloc, connection, lines.as_slice()),
        Err(fault) => Err(fault),
    }
}

/// Looks at who is there again and again, until the manager has gone or the logout is cancelled.
fn follow<C: Control, W: Console>(
    alloc: Global,
    connection: &mut C,
    console: &mut W,
    is_terminal: bool,
) -> Result<(), Fault>
    ensures sent { Adds (C.sent connection.old) (C.sent connection.new) AreQuestions }
    ensures seen { Adds (C.seen connection.old) (C.seen connection.new) (λ glances.
        shows_over false glances ≡ is_cancellation result) }
    ensures cause { IfErr result IsOfLogout }
{
    let mut logout = Logout::new();
    let mut shown = String::new(alloc);
    for _ in 0..u64::MAX {
        let look = match connection.look(alloc) {
            Ok(look) => look,
            Err(fault) => return Err(fault),
        };
        logout.look(look.glance);
        if logout.is_cancelled() {
            return Err(Fault::Cancelled);
        }
        let text = look.waited_for;
        if let Err(fault) = show_waiting(console, is_terminal, shown.as_str(), text.as_str()) {
            return Err(fault);
        }
        shown = text;
        match connection.rest() {
            Ok(true) => {}
            Ok(false) => return Ok(()),
            Err(fault) => return Err(fault),
        }
    }
    Ok(())
}

/// That the manager went is how a logout ends.
fn end_of(followed: Result<(), Fault>) -> Result<(), Fault>
    requires { IfErr followed IsOfLogout }
    ensures cancelled { is_cancellation result ≡ is_cancellation followed }
    ensures cause { IfErr result IsOfLogout }
{
    match followed {
        Err(Fault::Gone) => Ok(()),
        followed => followed,
    }
}

/// What became of a logout whose manager went: one that ends well removes its control socket first.
fn judge_end(end: Result<(), Fault>, is_left: bool) -> Result<(), Fault>
    requires { IfErr end IsOfLogout }
    ensures through { IfOk result (λ _. ¬ (IsTrue is_left)) }
    ensures cancelled { is_cancellation result ≡ is_cancellation end }
    ensures cause { IfErr result IsOfLogout }
{
    match end {
        Ok(()) if is_left => Err(Fault::Gone),
        end => end,
    }
}

/// Ends the line of a terminal.
fn end_line<W: Console>(console: &mut W, is_terminal: bool) -> Result<(), Fault>
    ensures { IfErr result IsOutside }
{
    if is_terminal {
        console.print(b"\n")?;
    }
    Ok(())
}

/// Waits for the end of a logout that was ordered, which is when the manager goes.
fn wait_on<C: Control, W: Console>(
    alloc: Global,
    connection: &mut C,
    console: &mut W,
    is_terminal: bool,
) -> Result<(), Fault>
    ensures sent { Adds (C.sent connection.old) (C.sent connection.new) AreQuestions }
    ensures seen { Adds (C.seen connection.old) (C.seen connection.new) (TellsEnd result) }
    ensures cause { IfErr result IsOfLogout }
{
    let end = end_of(follow(alloc, connection, console, is_terminal));
    match end_line(console, is_terminal) {
        Ok(()) => judge_end(end, connection.is_left()),
        Err(fault) => Err(fault),
    }
}

/// Prints the manager's answer to the order of a logout, which is `ok` where it has a place.
fn hear_ok<T: Talk, W: Console>(connection: &mut T, console: &mut W) -> Result<(), Fault>
    ensures sent { T.sent connection.new ≡ T.sent connection.old }
    ensures seen { T.seen connection.new ≡ T.seen connection.old }
    ensures cancelled { is_cancellation result ≡ false }
    ensures cause { IfErr result IsOfLogout }
{
    let answer = match connection.hear() {
        Ok(answer) => answer,
        Err(fault) => return Err(fault),
    };
    if let Err(failure) = console.print(answer.as_slice()) {
        return Err(Fault::from(failure));
    }
    if answer.as_slice() == b"ok\n".as_slice() {
        Ok(())
    } else {
        Err(Fault::Unordered)
    }
}

/// Orders a logout.
fn order_logout<T: Talk, W: Console>(connection: &mut T, console: &mut W) -> Result<(), Fault>
    ensures sent { Adds (T.sent connection.old) (T.sent connection.new)
        (SendsOne shutdown_line result) }
    ensures seen { T.seen connection.new ≡ T.seen connection.old }
    ensures cancelled { is_cancellation result ≡ false }
    ensures cause { IfErr result IsOfLogout }
{
    match connection.say(b"shutdown\n") {
        Ok(()) => hear_ok(connection, console),
        Err(fault) => Err(fault),
    }
}

/// Orders a logout and waits for its end, which is when the manager goes.
pub fn wait_for_end<C: Control, W: Console>(
    alloc: Global,
    connection: &mut C,
    console: &mut W,
    is_terminal: bool,
) -> Result<(), Fault>
    ensures sent { Adds (C.sent connection.old) (C.sent connection.new) (SendsLogout result) }
    ensures seen { Adds (C.seen connection.old) (C.seen connection.new) (TellsEnd result) }
    ensures cause { IfErr result IsOfLogout }
{
    match order_logout(connection, console) {
        Ok(()) => wait_on(alloc, connection, console, is_terminal),
        Err(fault) => Err(fault),
    }
}
