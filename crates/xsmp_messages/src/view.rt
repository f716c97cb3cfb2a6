ghost use Rattle.xsmp_messages.specs.Messages.{IsXsmpFrame};
ghost use Rattle.xsmp_messages.specs.Reading.{IsSpelled};

use ice_values::Endian;

/// A message where it lies: a frame of which it is known that it spells one. It can be copied.
#[derive(Clone, Copy, Debug)]
pub struct XsmpView<'a> {
    pub(crate) endian: Endian,
    pub(crate) frame: &'a [u8],
    pub ghost framed: { IsXsmpFrame endian frame.now },
    pub ghost spelled: { IsSpelled endian frame.now },
}
