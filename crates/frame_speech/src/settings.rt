ghost use Rattle.std.specs.Prelude.{◌≡◌, ◌≤◌, length};
ghost use Rattle.ice_values.specs.Frames.{body_at};
ghost use Rattle.ice_values.specs.Properties.{property_list_at};
ghost use Rattle.xsmp_messages.specs.Views.{WalksOf};
ghost use Rattle.frame_speech.specs.Speech.{reading_of, setting_by};
ghost use Rattle.frame_speech.specs.Settings.{set_in, may_turn};

use crate::Speech;
use crate::passing::may_say;
use ice_values::{Endian, PropertyWalk, walk_properties};

/// A walk over the list of properties that a body is. None where it is none.
fn walk_body(endian: Endian, frame: &[u8]) -> Option<PropertyWalk<'_>>
    requires { 8 ≤ length frame.now }
    ensures { WalksOf endian (set_in (setting_by (body_at (property_list_at endian) frame.now)))
        result }
{
    let (_, body) = frame.split_at(8);
    match walk_properties(endian, body) {
        Ok(found) => {
            if body.len().saturating_sub(found.1) < 8 {
                Some(found.0)
            } else {
                None
            }
        }
        Err(_) => None,
    }
}

impl Speech {
    /// A walk over the properties that a whole frame sets, where they lie. None where it sets none,
    /// or isn't understood. This takes no memory.
    pub fn settings(self, endian: Endian, frame: &[u8]) -> Option<PropertyWalk<'_>>
        requires { 8 ≤ length frame.now }
        ensures { WalksOf endian
            (set_in (reading_of self (record { endian = endian; bytes = frame.now }))) result }
    {
        if self.says(12, frame) {
            walk_body(endian, frame)
        } else {
            None
        }
    }
    /// Whether a whole frame may change how its sender is understood: where it sets properties it
    /// doesn't. This takes no memory.
    pub fn may_turn(self, endian: Endian, frame: &[u8]) -> bool
        requires { 8 ≤ length frame.now }
        ensures { result ≡ may_turn self (record { endian = endian; bytes = frame.now }) }
    {
        if !may_say(self, frame) {
            return false;
        }
        match self.settings(endian, frame) {
            Some(_) => false,
            None => true,
        }
    }
}
