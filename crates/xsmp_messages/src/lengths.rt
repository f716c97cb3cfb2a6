ghost use Rattle.std.specs.Prelude.{◌≡◌, ◌≤◌, length, IfSome, OnSome, IfNone};
ghost use Rattle.ice_values.specs.Cells.{byte};
ghost use Rattle.ice_values.specs.declared.numbers.Endian.{Endian as AnyEndian};
ghost use Rattle.xsmp_messages.specs.Messages.{layout, IsMessage, IsTooLong};

use crate::XsmpMessage;
use ice_values::{Spelled, error_len};

/// How many bytes the body of a message has, without its padding. None where it is too long.
pub fn body_size(message: &XsmpMessage) -> Option<usize>
    ensures none { IfNone result ((e : AnyEndian) → IsTooLong e message.now) }
    ensures is { IfSome result (λ n. (e : AnyEndian) → n ≡ length (layout byte e message.now).1) }
    ensures bound { IfSome result (λ n. n ≤ 65536) }
    ensures fits { OnSome result (IsMessage message.now) }
{
    match message {
        XsmpMessage::Error(error) => error_len(error),
        XsmpMessage::RegisterClient { previous } => previous.size(),
        XsmpMessage::RegisterClientReply { id } => id.size(),
        XsmpMessage::SaveYourself { .. } | XsmpMessage::SaveYourselfRequest { .. } => Some(8),
        XsmpMessage::ConnectionClosed { reasons } => reasons.size(),
        XsmpMessage::DeleteProperties { names } => names.size(),
        XsmpMessage::SetProperties { properties } => properties.size(),
        XsmpMessage::GetPropertiesReply { properties } => properties.size(),
        XsmpMessage::InteractRequest { .. }
        | XsmpMessage::Interact
        | XsmpMessage::InteractDone { .. }
        | XsmpMessage::SaveYourselfDone { .. }
        | XsmpMessage::Die
        | XsmpMessage::ShutdownCancelled
        | XsmpMessage::GetProperties
        | XsmpMessage::SaveYourselfPhase2Request
        | XsmpMessage::SaveYourselfPhase2
        | XsmpMessage::SaveComplete => Some(0),
    }
}
