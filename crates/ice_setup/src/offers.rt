ghost use Rattle.std.specs.Prelude.{◌≡◌, position};
ghost use Rattle.ice_setup.specs.Offers.{index_byte, is_cookie_name, is_xsmp as is_xsmp_spec, is_version_1_0, first_version as first_version_spec, first_cookie_name as first_cookie_name_spec};

use ice_values::{Text16, Version};

/// The authentication protocol that the manager speaks.
pub(crate) const COOKIE_NAME: [u8; 18] = *b"MIT-MAGIC-COOKIE-1";

/// The protocol over ICE that the manager speaks.
pub(crate) const PROTOCOL_NAME: [u8; 4] = *b"XSMP";

/// Whether a protocol's name is XSMP's.
pub fn is_xsmp(name: &Text16) -> bool
    ensures { result ≡ is_xsmp_spec name.now }
{
    name.as_slice() == PROTOCOL_NAME.as_slice()
}

/// An index, where one byte can say it. No spelled message has more items than that.
fn byte_of(index: Option<usize>) -> Option<u8>
    ensures { result ≡ index_byte index }
{
    match index {
        Some(index) if index < 256 => Some(index as u8),
        _ => None,
    }
}

/// Where the first version 1.0 stands.
fn place_of_version(versions: &[Version]) -> Option<usize>
    ensures { result ≡ position is_version_1_0 versions.now }
{
    versions
        .iter()
        .position(|version| version.major == 1 && version.minor == 0)
}

/// Where the first name of the cookie's authentication protocol stands.
fn place_of_cookie_name(names: &[Text16]) -> Option<usize>
    ensures { result ≡ position is_cookie_name names.now }
{
    names
        .iter()
        .position(|name| name.as_slice() == COOKIE_NAME.as_slice())
}

/// The index of the first version 1.0.
pub fn first_version(versions: &[Version]) -> Option<u8>
    ensures { result ≡ first_version_spec versions.now }
{
    byte_of(place_of_version(versions))
}

/// The index of the first name that is that of the cookie's authentication protocol.
pub fn first_cookie_name(names: &[Text16]) -> Option<u8>
    ensures { result ≡ first_cookie_name_spec names.now }
{
    byte_of(place_of_cookie_name(names))
}

/// What the manager reads of a ProtocolSetup's offer.
#[derive(Clone, Copy, Debug)]
pub struct Offer {
    /// The client wants authentication.
    pub must: bool,
    /// The index of the first version 1.0.
    pub version: Option<u8>,
    /// The index of the first name of the cookie's authentication protocol.
    pub name: Option<u8>,
}

pub fn read_offer(must: bool, names: &[Text16], versions: &[Version]) -> Offer
    ensures { result
        ≡ record {
          must = must;
          version = first_version_spec
              versions.now;
          name = first_cookie_name_spec names.now;
        } }
{
    Offer {
        must,
        version: first_version(versions),
        name: first_cookie_name(names),
    }
}
