ghost use Rattle.std.specs.Prelude.{◌≡◌, length, option_map};
ghost use Rattle.ice_values.specs.Reading.{Finds};
ghost use Rattle.frame_speech.specs.Settings.{GivesValue, ShownBy, head_at};

use ice_values::{Endian, PropertyView, cut_array8, pass_bytes, read_card32};

/// The values of a property, one after the other, where they lie. It can be copied, and so walked
/// again.
#[derive(Clone, Copy, Debug)]
pub struct ValueWalk<'a> {
    endian: Endian,
    count: u32,
    bytes: &'a [u8],
}

/// How many values a list has, and where the first of them lies. None where it is too short.
fn cut_head(endian: Endian, bytes: &[u8]) -> Option<(u32, &[u8])>
    ensures { Finds (λ x. (x.0, x.1.now)) result (head_at endian bytes.now) }
{
    let behind = pass_bytes(4, bytes)?;
    let items = pass_bytes(4, behind)?;
    Some((read_card32(endian, bytes), items))
}

impl<'a> ValueWalk<'a> {
    /// A walk over the values of a property that is spelled in this order of numbers.
    pub fn of(endian: Endian, view: &PropertyView<'a>) -> ValueWalk<'a>
        ensures { ShownBy endian view.now result }
    {
        let bytes = view.values;
        match cut_head(endian, bytes) {
            Some((count, bytes)) => ValueWalk {
                endian,
                count,
                bytes,
            },
            // No property has such values.
            None => ValueWalk {
                endian,
                count: 0,
                bytes,
            },
        }
    }

    /// How many values the property has, as long as none was given.
    pub fn count(&self) -> u32
        ensures { result ≡ self.now.count }
    {
        self.count
    }

    /// The next value. This takes no memory.
    pub fn next(&mut self) -> Option<&'a [u8]>
        ensures { GivesValue self.old (option_map (λ value. value.now) result) self.new }
    {
        if self.count == 0 {
            return None;
        }
        let (value, rest) = cut_array8(self.endian, self.bytes)?;
        self.count -= 1;
        self.bytes = rest;
        Some(value)
    }
}
