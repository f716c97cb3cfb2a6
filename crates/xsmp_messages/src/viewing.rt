ghost use Rattle.std.specs.Prelude.{◌≡◌, ◌≤◌, ℕ, length, IsOk, IfOk, IfErr};
ghost use Rattle.xsmp_messages.specs.Messages.{IsFrame, IsXsmpFrame, Spells, Refused};
ghost use Rattle.xsmp_messages.specs.Reading.{IsSpelled, decode_at};
ghost use Rattle.xsmp_messages.specs.Refusals.{as_decoding};
ghost use Rattle.xsmp_messages.specs.Views.{IsViewOf, IsRead, SpellsWhatIsRead, WalksBody, WalksMessage};

use crate::checks::check_minor;
use crate::refusals::without_memory;
use crate::{ViewRefusal, XsmpMessage, XsmpView, decode_xsmp};
use ice_values::{Endian, PropertyWalk, walk_properties};
use owned_lists::NoMemory;
use std::alloc::Global;

/// The message that a frame spells, where it lies, in the order of the party that sent it. Its
/// major opcode may be any. This takes no memory.
pub fn view_xsmp(endian: Endian, frame: &[u8]) -> Result<XsmpView<'_>, ViewRefusal>
    requires { IsFrame endian frame.now }
    // It is a view of this frame.
    ensures of { IfOk result (λ view. (view.endian ≡ endian) × (view.frame.now ≡ frame.now)) }
    // Where a message is spelled there is a view.
    ensures only { (opcode : ℕ) (message : _) → Spells endian opcode message frame.now →
        IsOk result }
    // Each refusal has its cause.
    ensures refused { IfErr result (λ refusal. Refused endian frame.now (as_decoding refusal)) }
    // There is one exactly where `decode_xsmp` gives a message, unless memory is wanting.
    ensures exact { IsViewOf (decode_at endian frame.now) result }
{
    match check_minor(endian, frame) {
        Ok(()) => Ok(XsmpView { endian, frame }),
        Err(refusal) => Err(without_memory(refusal)),
    }
}

/// A walk over the list of properties that a body is.
fn walk_body(endian: Endian, frame: &[u8]) -> Option<PropertyWalk<'_>>
    requires { 8 ≤ length frame.now }
    ensures { WalksBody endian frame.now result }
{
    let (_, body) = frame.split_at(8);
    match walk_properties(endian, body) {
        Ok(found) => Some(found.0),
        Err(_) => None,
    }
}

impl<'a> XsmpView<'a> {
    /// The order of numbers in which the message is spelled.
    pub fn endian(&self) -> Endian
        ensures { result ≡ self.now.endian }
    {
        self.endian
    }

    /// The frame. This takes no memory.
    pub fn bytes(&self) -> &'a [u8]
        ensures is { result.now ≡ self.now.frame.now }
        ensures framed { IsXsmpFrame self.now.endian result.now }
        ensures spelled { IsSpelled self.now.endian result.now }
        ensures spells { SpellsWhatIsRead self.now.endian result.now }
    {
        self.frame
    }

    /// The message in memory of its own.
    pub fn to_message(&self, alloc: Global) -> Result<XsmpMessage, NoMemory>
        ensures { IfOk result (IsRead self.now.endian self.now.frame.now) }
    {
        match decode_xsmp(alloc, self.endian, self.frame) {
            Ok(message) => Ok(message),
            // A message is spelled there, so memory was wanting.
            Err(_) => Err(NoMemory),
        }
    }

    /// A walk over the properties of a SetProperties or a GetPropertiesReply. None for every other
    /// message. This takes no memory.
    pub fn properties(&self) -> Option<PropertyWalk<'a>>
        ensures { WalksMessage self.now.endian self.now.frame.now result }
    {
        match self.frame[1] {
            12 => walk_body(self.endian, self.frame),
            15 => walk_body(self.endian, self.frame),
            _ => None,
        }
    }
}
