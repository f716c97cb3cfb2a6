ghost use Rattle.std.specs.Prelude.{◌≡◌, ◌≤◌, length};
ghost use Rattle.display_messages.specs.Parts.{notice, message_in, event_of, error_kind_of, error_in, part_of};

use crate::places::{read_long, read_short};
use crate::{ClientMessage, DisplayError, ErrorKind, Event, Part, WindowNotice};

fn read_notice(bytes: &[u8]) -> WindowNotice
    requires { 32 ≤ length bytes.now }
    ensures { result ≡ notice bytes.now }
{
    WindowNotice {
        heard: read_long(bytes, 4),
        window: read_long(bytes, 8),
    }
}

fn read_message(bytes: &[u8]) -> ClientMessage
    requires { 32 ≤ length bytes.now }
    ensures { result ≡ message_in bytes.now }
{
    ClientMessage {
        window: read_long(bytes, 4),
        kind: read_long(bytes, 8),
        first: read_long(bytes, 12),
        second: read_long(bytes, 16),
        third: read_long(bytes, 20),
    }
}

/// The event of a code.
fn read_event(code: u8, bytes: &[u8]) -> Event
    requires { 32 ≤ length bytes.now }
    ensures { result ≡ event_of code bytes.now }
{
    match code {
        16 => Event::CreateNotify(read_notice(bytes)),
        17 => Event::DestroyNotify(read_notice(bytes)),
        18 => Event::UnmapNotify(read_notice(bytes)),
        19 => Event::MapNotify(read_notice(bytes)),
        21 => Event::ReparentNotify(read_notice(bytes)),
        28 => Event::PropertyNotify {
            window: read_long(bytes, 4),
            property: read_long(bytes, 8),
        },
        33 => {
            if bytes[1] == 32 {
                Event::Message(read_message(bytes))
            } else {
                Event::Other
            }
        }
        _ => Event::Other,
    }
}

fn error_kind(code: u8) -> ErrorKind
    ensures { result ≡ error_kind_of code }
{
    match code {
        3 => ErrorKind::BadWindow,
        other => ErrorKind::Other(other),
    }
}

fn read_error(bytes: &[u8]) -> Part
    requires { 32 ≤ length bytes.now }
    ensures { result ≡ error_in bytes.now }
{
    Part::Error {
        sequence: read_short(bytes, 2),
        error: DisplayError {
            kind: error_kind(bytes[1]),
            resource: read_long(bytes, 4),
            opcode: bytes[10],
        },
    }
}

/// What a part of a display's stream behind the set-up says; any bytes are read.
pub fn read_part(bytes: &[u8]) -> Part
    ensures { result ≡ part_of bytes.now }
{
    if bytes.len() < 32 {
        return Part::Short;
    }
    match bytes[0] {
        0 => read_error(bytes),
        1 => Part::Reply {
            sequence: read_short(bytes, 2),
        },
        first => Part::Event {
            sent: first >= 128,
            event: read_event(first % 128, bytes),
        },
    }
}
