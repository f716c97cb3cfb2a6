ghost use Rattle.std.specs.Prelude.{◌≡◌, ◌-◌, ◌++◌, ◌∷◌, ℕ, List, OnOk, codes, decimal, flat_map, option_copied};
ghost use Rattle.session_watch.specs.Story.{Passage};
ghost use Rattle.session_watch.specs.Knowing.{Follows};
ghost use Rattle.session_watch.specs.Lines.{asks_who_is_there, yes_text, stage_text, kind_text, reason_text, style_text, haste_text, asked_word, save_text, asked_text, answered_text, is_plain, byte_text, shown, text_of, state_text, talk_text, names_text, client_line, count_line};

use crate::asking::{Answered, Asked};
use crate::stage::Stage;
use crate::watch::ClientWatch;
use ice_values::{SaveKind, SaveStyle};
use owned_lists::{NoMemory, Octets};
use sm_world::Conn;
use std::alloc::Global;

/// Whether a line, without its newline, asks who is there.
pub fn asks_who_is_there(line: &[u8]) -> bool
    ensures { result ≡ asks_who_is_there line.now }
{
    line == b"clients".as_slice()
}

fn yes_text(is: bool) -> &'static [u8]
    ensures { result.now ≡ yes_text is }
{
    if is { b"yes" } else { b"no" }
}

fn stage_text(stage: Stage) -> &'static [u8]
    ensures { result.now ≡ stage_text stage }
{
    match stage {
        Stage::Joining => b"joining",
        Stage::Idle => b"idle",
        Stage::Saving => b"saving",
        Stage::Interacting => b"interacting",
        Stage::Waiting => b"waiting",
        Stage::Done => b"done",
        Stage::Dying => b"dying",
        Stage::Unreadable => b"unreadable",
    }
}

fn kind_text(kind: SaveKind) -> &'static [u8]
    ensures { result.now ≡ kind_text kind }
{
    match kind {
        SaveKind::Global => b"global",
        SaveKind::Local => b"local",
        SaveKind::Both => b"both",
    }
}

fn reason_text(shutdown: bool) -> &'static [u8]
    ensures { result.now ≡ reason_text shutdown }
{
    if shutdown {
        b"-logout-"
    } else {
        b"-checkpoint-"
    }
}

fn style_text(style: SaveStyle) -> &'static [u8]
    ensures { result.now ≡ style_text style }
{
    match style {
        SaveStyle::Nothing => b"none",
        SaveStyle::Errors => b"errors",
        SaveStyle::Any => b"any",
    }
}

fn haste_text(fast: bool) -> &'static [u8]
    ensures { result.now ≡ haste_text fast }
{
    if fast { b"-fast" } else { b"" }
}

fn asked_word(asked: Asked) -> &'static [u8]
    ensures { result.now ≡ asked_word asked }
{
    match asked {
        Asked::Save { .. } => b"save-yourself-",
        Asked::Interaction => b"interact",
        Asked::PhaseTwo => b"save-yourself-phase2",
        Asked::Complete => b"save-complete",
        Asked::Cancelled => b"shutdown-cancelled",
        Asked::Death => b"die",
    }
}

/// Appends what kind of save is asked, where one is.
fn put_save(out: &mut Octets, asked: Asked) -> Result<(), NoMemory>
    ensures { OnOk result (out.new ≡ out.old ++ save_text asked) }
{
    match asked {
        Asked::Save {
            kind,
            shutdown,
            style,
            fast,
        } => {
            out.append(kind_text(kind))?;
            out.append(reason_text(shutdown))?;
            out.append(style_text(style))?;
            out.append(haste_text(fast))
        }
        Asked::Interaction => Ok(()),
        Asked::PhaseTwo => Ok(()),
        Asked::Complete => Ok(()),
        Asked::Cancelled => Ok(()),
        Asked::Death => Ok(()),
    }
}

/// Appends what a client was asked last.
fn put_asked(out: &mut Octets, asked: Option<Asked>) -> Result<(), NoMemory>
    ensures { OnOk result (out.new ≡ out.old ++ asked_text asked) }
{
    match asked {
        None => out.append(b"none"),
        Some(asked) => {
            out.append(asked_word(asked))?;
            put_save(out, asked)
        }
    }
}

fn answered_text(answered: Option<Answered>) -> &'static [u8]
    ensures { result.now ≡ answered_text answered }
{
    match answered {
        None => b"none",
        Some(Answered::Registered) => b"register-client",
        Some(Answered::SaveRequested) => b"save-yourself-request",
        Some(Answered::InteractRequested) => b"interact-request",
        Some(Answered::InteractEnded) => b"interact-done",
        Some(Answered::PhaseTwoRequested) => b"save-yourself-phase2-request",
        Some(Answered::Saved) => b"save-yourself-done",
        Some(Answered::Failed) => b"save-yourself-failed",
        Some(Answered::Closed) => b"connection-closed",
    }
}

/// Whether a byte is shown as itself.
fn is_plain(byte: u8) -> bool
    ensures { result ≡ is_plain byte }
{
    33 <= byte && byte <= 126 && byte != b'\\'
}

fn put_byte(alloc: Global, out: &mut Octets, byte: u8) -> Result<(), NoMemory>
    ensures { OnOk result (out.new ≡ out.old ++ byte_text byte) }
{
    if is_plain(byte) {
        return out.append(&[byte]);
    }
    let digits = hex::encode(alloc, &[byte])?;
    out.append(b"\\x")?;
    out.append(digits.as_bytes())
}

fn put_bytes(alloc: Global, out: &mut Octets, bytes: &[u8]) -> Result<(), NoMemory>
    ensures { OnOk result (out.new ≡ out.old ++ flat_map byte_text bytes.now) }
{
    for &byte in bytes {
        put_byte(alloc, out, byte)?;
    }
    Ok(())
}

/// Appends a text so that it has no blank and nothing that can't be printed.
pub fn put_shown(alloc: Global, out: &mut Octets, text: &[u8]) -> Result<(), NoMemory>
    ensures { OnOk result (out.new ≡ out.old ++ shown text.now) }
{
    if text == b"-".as_slice() {
        return out.append(b"\\x2d");
    }
    put_bytes(alloc, out, text)
}

/// Appends a text, or a hyphen where none is known.
fn put_text(alloc: Global, out: &mut Octets, text: Option<&Octets>) -> Result<(), NoMemory>
    ensures { OnOk result (out.new ≡ out.old ++ text_of (option_copied text.entry)) }
{
    match text {
        Some(text) => put_shown(alloc, out, text.as_slice()),
        None => out.append(b"-"),
    }
}

fn put_number(alloc: Global, out: &mut Octets, name: &[u8], number: u64) -> Result<(), NoMemory>
    ensures { OnOk result (out.new ≡ out.old ++ (name.now ++ decimal number)) }
{
    let number = number.to_string(alloc)?;
    out.append(name)?;
    out.append(number.as_bytes())
}

fn put_word(out: &mut Octets, name: &[u8], word: &[u8]) -> Result<(), NoMemory>
    ensures { OnOk result (out.new ≡ out.old ++ (name.now ++ word.now)) }
{
    out.append(name)?;
    out.append(word)
}

/// Appends how far a client is.
fn put_state(
    alloc: Global,
    out: &mut Octets,
    conn: Conn,
    stage: Stage,
    logout: bool,
    silent: u64,
) -> Result<(), NoMemory>
    ensures { OnOk result (out.new ≡ out.old ++ state_text conn stage logout silent) }
{
    put_number(alloc, out, b"conn=", conn.into())?;
    put_word(out, b" holds=", yes_text(stage.holds_up()))?;
    put_word(out, b" stage=", stage_text(stage))?;
    put_word(out, b" logout=", yes_text(logout))?;
    put_number(alloc, out, b" silent=", silent)
}

/// Appends what a client was asked and has answered.
fn put_talk(
    out: &mut Octets,
    asked: Option<Asked>,
    answered: Option<Answered>,
) -> Result<(), NoMemory>
    ensures { OnOk result (out.new ≡ out.old ++ talk_text asked answered) }
{
    out.append(b" asked=")?;
    put_asked(out, asked)?;
    put_word(out, b" answered=", answered_text(answered))
}

/// Appends how a client is named.
fn put_names(
    alloc: Global,
    out: &mut Octets,
    id: Option<&Octets>,
    program: Option<&Octets>,
) -> Result<(), NoMemory>
    ensures { OnOk result
        (out.new ≡ out.old ++ names_text (option_copied id.entry) (option_copied program.entry)) }
{
    out.append(b" id=")?;
    put_text(alloc, out, id)?;
    out.append(b" program=")?;
    put_text(alloc, out, program)?;
    out.append(b"\n")
}

/// Appends the line of a client whose connection has this number; it is excused where somebody has
/// answered for it.
pub fn put_client(
    alloc: Global,
    out: &mut Octets,
    conn: Conn,
    now: u64,
    excused: bool,
    watch: &ClientWatch,
) -> Result<(), NoMemory>
    ensures { OnOk result ((start : ℕ) (story : List Passage) → Follows start story watch.now
        → out.new ≡ out.old ++ client_line excused conn now start story) }
{
    put_state(
        alloc,
        out,
        conn,
        watch.stage().shown(excused),
        watch.is_logout(),
        watch.silent(now),
    )?;
    put_talk(out, watch.asked(), watch.answered())?;
    put_names(alloc, out, watch.id(), watch.program())
}

/// Appends the line that stands in front of those of so many clients.
pub fn put_count(alloc: Global, out: &mut Octets, count: u64) -> Result<(), NoMemory>
    ensures { OnOk result (out.new ≡ out.old ++ count_line count) }
{
    put_number(alloc, out, b"clients ", count)?;
    out.append(b"\n")
}
