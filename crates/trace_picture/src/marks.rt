use ice_values::Dialog;
use owned_lists::{NoMemory, Octets};
use std::alloc::Global;
use xsmp_messages::XsmpMessage;

/// What a message does to the save of its client.
#[derive(Clone, Copy, Debug, PartialEq, Eq)]
pub enum SaveStep {
    /// It begins one, of a logout or not.
    Begins(bool),
    Ends,
    Nothing,
}

pub fn save_step(message: &XsmpMessage) -> SaveStep {
    match message {
        XsmpMessage::SaveYourself { shutdown, .. } => SaveStep::Begins(*shutdown),
        XsmpMessage::SaveComplete => SaveStep::Ends,
        XsmpMessage::ShutdownCancelled => SaveStep::Ends,
        XsmpMessage::Die => SaveStep::Ends,
        _ => SaveStep::Nothing,
    }
}

/// What stands behind the name of a message at its arrow.
fn note_of(message: &XsmpMessage) -> &'static str {
    match message {
        XsmpMessage::SaveYourself { shutdown, .. } => if *shutdown { " logout" } else { "" },
        XsmpMessage::SaveYourselfRequest { shutdown, .. } => if *shutdown { " logout" } else { "" },
        XsmpMessage::InteractRequest { dialog } => match dialog {
            Dialog::Error => " error",
            Dialog::Normal => "",
        },
        XsmpMessage::InteractDone { cancel } => if *cancel { " cancel" } else { "" },
        XsmpMessage::SaveYourselfDone { success } => if *success { "" } else { " failed" },
        _ => "",
    }
}

/// The name of a message in a line of it, which ends at the first blank or newline.
fn name_in(line: &[u8]) -> &[u8] {
    for (i, byte) in line.iter().enumerate() {
        if *byte == b' ' || *byte == b'\n' {
            return &line[..i];
        }
    }
    line
}

/// What stands at the arrow of a message.
pub fn arrow_name(
    alloc: Global,
    line: &[u8],
    message: Option<&XsmpMessage>,
) -> Result<Octets, NoMemory> {
    let mut name = Octets::from_slice(alloc, name_in(line))?;
    if let Some(message) = message {
        name.append(note_of(message).as_bytes())?;
    }
    Ok(name)
}

/// Whether a message of ICE belongs to the set-up.
pub fn is_setup(line: &[u8]) -> bool {
    let name = name_in(line);
    name == b"ByteOrder".as_slice()
        || name == b"ConnectionSetup".as_slice()
        || name == b"AuthenticationRequired".as_slice()
        || name == b"AuthenticationReply".as_slice()
        || name == b"AuthenticationNextPhase".as_slice()
        || name == b"ConnectionReply".as_slice()
        || name == b"ProtocolSetup".as_slice()
        || name == b"ProtocolReply".as_slice()
}

/// Whether a message of ICE only asks whether somebody is there, or answers that.
pub fn is_ping(line: &[u8]) -> bool {
    let name = name_in(line);
    name == b"Ping".as_slice() || name == b"PingReply".as_slice()
}
