ghost use Rattle.std.specs.Prelude.{◌≡◌, ◌++◌, OnOk, IfOk};
ghost use Rattle.message_text.specs.Lines.{xsmp_name as name_in, xsmp_fields, xsmp_text, save_text, properties_field};

use crate::fields::{put_error, put_field};
use crate::properties::put_property_lines;
use crate::words::Writing;
use ice_values::{PropertyList, SaveKind, SaveStyle};
use owned_lists::{NoMemory, Octets};
use std::alloc::Global;
use xsmp_messages::XsmpMessage;

/// The name of a message.
pub fn xsmp_name(message: &XsmpMessage) -> &'static str
    ensures { result.now ≡ name_in message.now }
{
    match message {
        XsmpMessage::Error(_) => "Error",
        XsmpMessage::RegisterClient { .. } => "RegisterClient",
        XsmpMessage::RegisterClientReply { .. } => "RegisterClientReply",
        XsmpMessage::SaveYourself { .. } => "SaveYourself",
        XsmpMessage::SaveYourselfRequest { .. } => "SaveYourselfRequest",
        XsmpMessage::InteractRequest { .. } => "InteractRequest",
        XsmpMessage::Interact => "Interact",
        XsmpMessage::InteractDone { .. } => "InteractDone",
        XsmpMessage::SaveYourselfDone { .. } => "SaveYourselfDone",
        XsmpMessage::Die => "Die",
        XsmpMessage::ShutdownCancelled => "ShutdownCancelled",
        XsmpMessage::ConnectionClosed { .. } => "ConnectionClosed",
        XsmpMessage::SetProperties { .. } => "SetProperties",
        XsmpMessage::DeleteProperties { .. } => "DeleteProperties",
        XsmpMessage::GetProperties => "GetProperties",
        XsmpMessage::GetPropertiesReply { .. } => "GetPropertiesReply",
        XsmpMessage::SaveYourselfPhase2Request => "SaveYourselfPhase2Request",
        XsmpMessage::SaveYourselfPhase2 => "SaveYourselfPhase2",
        XsmpMessage::SaveComplete => "SaveComplete",
    }
}

/// Appends which save is asked for.
fn put_save(
    alloc: Global,
    writing: Writing,
    out: &mut Octets,
    kind: SaveKind,
    shutdown: bool,
    style: SaveStyle,
    fast: bool,
) -> Result<(), NoMemory>
    ensures { OnOk result (out.new ≡ out.old ++ save_text writing kind shutdown style fast) }
{
    put_field(alloc, writing, out, "kind", &kind)?;
    put_field(alloc, writing, out, "shutdown", &shutdown)?;
    put_field(alloc, writing, out, "style", &style)?;
    put_field(alloc, writing, out, "fast", &fast)
}

/// Appends a list of properties.
fn put_properties(
    alloc: Global,
    writing: Writing,
    out: &mut Octets,
    properties: &PropertyList,
) -> Result<(), NoMemory>
    ensures { OnOk result (out.new ≡ out.old ++ properties_field writing properties.now) }
{
    match writing {
        Writing::Codes => put_field(alloc, Writing::Codes, out, "properties", properties),
        Writing::Words => put_property_lines(alloc, out, properties.as_slice()),
    }
}

/// Appends the fields of a message.
fn put_fields(
    alloc: Global,
    writing: Writing,
    out: &mut Octets,
    message: &XsmpMessage,
) -> Result<(), NoMemory>
    ensures { OnOk result (out.new ≡ out.old ++ xsmp_fields writing message.now) }
{
    match message {
        XsmpMessage::Error(error) => put_error(alloc, writing, out, error),
        XsmpMessage::RegisterClient { previous } => put_field(
            alloc, writing, out, "previous", previous,
        ),
        XsmpMessage::RegisterClientReply { id } => put_field(alloc, writing, out, "id", id),
        XsmpMessage::SaveYourself {
            kind,
            shutdown,
            style,
            fast,
        } => { put_save(alloc, writing, out, *kind, *shutdown, *style, *fast) }
        XsmpMessage::SaveYourselfRequest {
            kind,
            shutdown,
            style,
            fast,
            global,
        } => {
            put_save(alloc, writing, out, *kind, *shutdown, *style, *fast)?;
            put_field(alloc, writing, out, "global", global)
        }
        XsmpMessage::InteractRequest { dialog } => put_field(alloc, writing, out, "dialog", dialog),
        XsmpMessage::InteractDone { cancel } => put_field(alloc, writing, out, "cancel", cancel),
        XsmpMessage::SaveYourselfDone { success } => put_field(
            alloc, writing, out, "success", success,
        ),
        XsmpMessage::ConnectionClosed { reasons } => put_field(
            alloc, writing, out, "reasons", reasons,
        ),
        XsmpMessage::SetProperties { properties } => put_properties(
            alloc, writing, out, properties,
        ),
        XsmpMessage::DeleteProperties { names } => put_field(alloc, writing, out, "names", names),
        XsmpMessage::GetPropertiesReply { properties } => put_properties(
            alloc, writing, out, properties,
        ),
        XsmpMessage::Interact
        | XsmpMessage::Die
        | XsmpMessage::ShutdownCancelled
        | XsmpMessage::GetProperties
        | XsmpMessage::SaveYourselfPhase2Request
        | XsmpMessage::SaveYourselfPhase2
        | XsmpMessage::SaveComplete => Ok(()),
    }
}

/// The line of a message of XSMP, without a newline, which is written as one of ICE. A property is
/// `name:type:[value,value]` (XSMP, chapter 10).
pub fn xsmp_line(alloc: Global, writing: Writing, message: &XsmpMessage) -> Result<Octets, NoMemory>
    ensures { IfOk result (λ line. line ≡ xsmp_text writing message.now) }
{
    let mut line = Octets::from_slice(alloc, xsmp_name(message).as_bytes())?;
    put_fields(alloc, writing, &mut line, message)?;
    Ok(line)
}
