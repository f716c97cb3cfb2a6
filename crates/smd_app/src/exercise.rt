ghost use Rattle.std.specs.Prelude.{◌≡◌, ◌++◌, ◌∷◌, [], ◌≤◌, ◌+◌, ◌%◌, IfOk, OnOk};
ghost use Rattle.std.specs.List.{AllByRecursion};
ghost use Rattle.sm_world.specs.Events.{HasPieceSize};
ghost use Rattle.sm_world.specs.declared.events.Event.TheVariants.{Piece};
ghost use Rattle.smd_app.specs.Exercises.{each, login_events, sends, wants_two, first_answer, second_answer, round_events, ending_events, exercise_events};

use crate::words::Exercise;
use owned_lists::{NoMemory, Octets};
use sm_world::{Conn, Event, EventList, Order};
use std::alloc::Global;

/// How many clients there are.
const CLIENTS: u32 = 8;

/// Its byte order: LSB first.
const BYTE_ORDER: &[u8] = b"\0\x01\0\0\0\0\0\0";

/// ConnectionSetup, with one version and the method of the cookie.
const CONNECTION_SETUP: &[u8] =
    b"\0\x02\x01\x01\x06\0\0\0\0\0\0\0\0\0\0\0\x03\0MIT\0\0\0\x03\01.0\0\0\0\x12\0MIT-MAGIC-COOKIE-1\x01\0\0\0";

/// AuthenticationReply, with the cookie of each rehearsal.
const AUTHENTICATION_REPLY: &[u8] =
    b"\0\x04\0\0\x03\0\0\0\x10\0\0\0\0\0\0\0\0\x01\x02\x03\x04\x05\x06\x07\x08\x09\x0a\x0b\x0c\x0d\x0e\x0f";

/// ProtocolSetup for XSMP, with opcode 1 and the method of the cookie.
const PROTOCOL_SETUP: &[u8] =
    b"\0\x07\x01\0\x07\0\0\0\x01\x01\0\0\0\0\0\0\x04\0XSMP\0\0\x03\0MIT\0\0\0\x03\01.0\0\0\0\x12\0MIT-MAGIC-COOKIE-1\x01\0\0\0";

/// RegisterClient, without a previous ID.
const REGISTER_CLIENT: &[u8] = b"\x01\x01\0\0\x01\0\0\0\0\0\0\0\0\0\0\0";

/// SetProperties with the RestartCommand `c`.
const SET_RESTART_COMMAND: &[u8] =
    b"\x01\x0c\0\0\x08\0\0\0\x01\0\0\0\0\0\0\0\x0e\0\0\0RestartCommand\0\0\0\0\0\0\x0c\0\0\0LISTofARRAY8\x01\0\0\0\0\0\0\0\x01\0\0\0c\0\0\0";

/// SaveYourselfDone, with success.
const SAVE_DONE: &[u8] = b"\x01\x08\x01\0\0\0\0\0";

/// SaveYourselfPhase2Request.
const PHASE_TWO: &[u8] = b"\x01\x10\0\0\0\0\0\0";

/// ConnectionClosed, without reasons.
const CONNECTION_CLOSED: &[u8] = b"\x01\x0b\0\0\x01\0\0\0\0\0\0\0\0\0\0\0";

/// A client sends these bytes.
fn push_piece(
    alloc: Global,
    events: &mut EventList,
    conn: Conn,
    bytes: &[u8],
) -> Result<(), NoMemory>
    ensures { OnOk result (events.new ≡ events.old ++ Piece conn bytes.now ∷ []) }
{
    events.push(Event::Piece(conn, Octets::from_slice(alloc, bytes)?))
}

/// A client logs in and saves for the first time.
fn push_login(alloc: Global, events: &mut EventList, conn: Conn) -> Result<(), NoMemory>
    ensures { OnOk result (events.new ≡ events.old ++ login_events conn) }
{
    events.push(Event::Joined(conn))?;
    push_piece(alloc, events, conn, BYTE_ORDER)?;
    push_piece(alloc, events, conn, CONNECTION_SETUP)?;
    push_piece(alloc, events, conn, AUTHENTICATION_REPLY)?;
    push_piece(alloc, events, conn, PROTOCOL_SETUP)?;
    push_piece(alloc, events, conn, AUTHENTICATION_REPLY)?;
    push_piece(alloc, events, conn, REGISTER_CLIENT)?;
    push_piece(alloc, events, conn, SET_RESTART_COMMAND)?;
    push_piece(alloc, events, conn, SAVE_DONE)
}

fn push_logins(alloc: Global, events: &mut EventList) -> Result<(), NoMemory>
    ensures { OnOk result (events.new ≡ events.old ++ each login_events 8) }
{
    for count in 0..CLIENTS {
        push_login(alloc, events, count + 1)?;
    }
    Ok(())
}

/// Each client sends these bytes.
fn push_from_all(alloc: Global, events: &mut EventList, bytes: &[u8]) -> Result<(), NoMemory>
    ensures { OnOk result (events.new ≡ events.old ++ each (sends bytes.now) 8) }
{
    for count in 0..CLIENTS {
        push_piece(alloc, events, count + 1, bytes)?;
    }
    Ok(())
}

/// Whether a client wants to save in the second phase, by its bit.
fn is_second(bits: u8, conn: Conn) -> bool
    requires some { 1 ≤ conn }
    requires few { conn ≤ 8 }
    ensures { result ≡ wants_two bits conn }
{
    (bits >> (conn - 1)) % 2 == 1
}

/// What each client answers first.
fn push_first_answers(alloc: Global, events: &mut EventList, bits: u8) -> Result<(), NoMemory>
    ensures { OnOk result (events.new ≡ events.old ++ each (first_answer bits) 8) }
{
    for count in 0..CLIENTS {
        let conn = count + 1;
        let answer = if is_second(bits, conn) {
            PHASE_TWO
        } else {
            SAVE_DONE
        };
        push_piece(alloc, events, conn, answer)?;
    }
    Ok(())
}

/// What those answer that save in the second phase.
fn push_second_answers(alloc: Global, events: &mut EventList, bits: u8) -> Result<(), NoMemory>
    ensures { OnOk result (events.new ≡ events.old ++ each (second_answer bits) 8) }
{
    for count in 0..CLIENTS {
        let conn = count + 1;
        if is_second(bits, conn) {
            push_piece(alloc, events, conn, SAVE_DONE)?;
        }
    }
    Ok(())
}

/// The lowest eight bits of a sum.
fn low_bits(pattern: u64, round: u64) -> u8
    ensures { result ≡ (pattern + round) % 256 }
{
    ((u128::from(pattern) + u128::from(round)) % 256) as u8
}

/// A checkpoint and what the clients answer.
fn push_round(
    alloc: Global,
    events: &mut EventList,
    pattern: u64,
    round: u64,
) -> Result<(), NoMemory>
    ensures { OnOk result (events.new ≡ events.old ++ round_events pattern round) }
{
    let bits = low_bits(pattern, round);
    events.push(Event::Operator(Order::Checkpoint))?;
    push_first_answers(alloc, events, bits)?;
    push_second_answers(alloc, events, bits)
}

fn push_rounds(alloc: Global, events: &mut EventList, exercise: Exercise) -> Result<(), NoMemory>
    requires { exercise.rounds ≤ 1000 }
    ensures { OnOk result
        (events.new ≡ events.old ++ each (round_events exercise.pattern) exercise.rounds) }
{
    for count in 0..exercise.rounds {
        push_round(alloc, events, exercise.pattern, count + 1)?;
    }
    Ok(())
}

/// The logout.
fn push_ending(alloc: Global, events: &mut EventList) -> Result<(), NoMemory>
    ensures { OnOk result (events.new ≡ events.old ++ ending_events) }
{
    events.push(Event::Operator(Order::Shutdown))?;
    push_from_all(alloc, events, SAVE_DONE)?;
    push_from_all(alloc, events, CONNECTION_CLOSED)
}

/// The events of an exercise.
pub fn exercise_script(alloc: Global, exercise: Exercise) -> Result<EventList, NoMemory>
    requires { exercise.rounds ≤ 1000 }
    ensures events { IfOk result (λ events. events
        ≡ exercise_events exercise.pattern exercise.rounds) }
    ensures sized { IfOk result (AllByRecursion HasPieceSize) }
{
    let mut events = EventList::new(alloc);
    push_logins(alloc, &mut events)?;
    push_rounds(alloc, &mut events, exercise)?;
    push_ending(alloc, &mut events)?;
    Ok(events)
}
