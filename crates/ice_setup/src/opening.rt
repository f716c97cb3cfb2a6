ghost use Rattle.std.specs.Prelude.{◌≡◌, ◌∷◌, [], length, IfOk};
ghost use Rattle.ice_setup.specs.Offers.{cookie_name};
ghost use Rattle.ice_setup.specs.Opener.{offered_version, connection_setup as connection_setup_spec, protocol_setup as protocol_setup_spec, shows_cookie as shows_cookie_spec};
ghost use Rattle.ice_values.specs.declared.numbers.Endian.TheVariants.{Lsb};
ghost use Rattle.ice_messages.specs.Messages.{IsTooLong};

use crate::answers::own_text;
use crate::offers::{COOKIE_NAME, PROTOCOL_NAME};
use ice_cookie::Cookie;
use ice_messages::IceMessage;
use ice_values::{TextList, Version, VersionList};
use owned_lists::{NoMemory, Octets};
use std::alloc::Global;

/// The client's major opcode for the messages of XSMP.
const CLIENT_OPCODE: u8 = 1;

/// Whether the client wants to be shown authentication itself.
const MUST_AUTHENTICATE: bool = false;

/// The one name of an authentication protocol that the client offers.
fn names(alloc: Global) -> Result<TextList, NoMemory>
    ensures { IfOk result (λ names. names ≡ cookie_name ∷ []) }
{
    let mut names = TextList::new(alloc);
    names.push(own_text(alloc, &COOKIE_NAME)?)?;
    Ok(names)
}

/// The one version of ICE and of XSMP that the client offers.
fn versions(alloc: Global) -> Result<VersionList, NoMemory>
    ensures { IfOk result (λ versions. versions ≡ offered_version ∷ []) }
{
    let mut versions = VersionList::new(alloc);
    versions.push(Version { major: 1, minor: 0 })?;
    Ok(versions)
}

/// The client sets the connection up.
pub fn connection_setup(alloc: Global) -> Result<IceMessage, NoMemory>
    ensures answer { IfOk result (λ setup. setup ≡ connection_setup_spec) }
    ensures said { IfOk result (λ setup. ¬ (IsTooLong Lsb setup)) }
{
    Ok(IceMessage::ConnectionSetup {
        must: MUST_AUTHENTICATE,
        vendor: own_text(alloc, b"smclient")?,
        release: own_text(alloc, b"1.0")?,
        names: names(alloc)?,
        versions: versions(alloc)?,
    })
}

/// The client sets XSMP up.
pub fn protocol_setup(alloc: Global) -> Result<IceMessage, NoMemory>
    ensures answer { IfOk result (λ setup. setup ≡ protocol_setup_spec) }
    ensures said { IfOk result (λ setup. ¬ (IsTooLong Lsb setup)) }
{
    Ok(IceMessage::ProtocolSetup {
        opcode: CLIENT_OPCODE,
        must: MUST_AUTHENTICATE,
        protocol: own_text(alloc, &PROTOCOL_NAME)?,
        vendor: own_text(alloc, b"smclient")?,
        release: own_text(alloc, b"1.0")?,
        names: names(alloc)?,
        versions: versions(alloc)?,
    })
}

/// A copy of a cookie's bytes.
fn copy_of(alloc: Global, bytes: &[u8; 16]) -> Result<Octets, NoMemory>
    ensures same { IfOk result (λ copy. copy ≡ bytes.now) }
    ensures count { IfOk result (λ copy. length copy ≡ 16) }
{
    Octets::from_slice(alloc, bytes)
}

/// The client shows the cookie.
pub fn shows_cookie(alloc: Global, cookie: Cookie) -> Result<IceMessage, NoMemory>
    ensures answer { IfOk result (λ reply. reply ≡ shows_cookie_spec cookie) }
    ensures said { IfOk result (λ reply. ¬ (IsTooLong Lsb reply)) }
{
    let proof = copy_of(alloc, &cookie.0)?;
    Ok(IceMessage::AuthenticationReply { proof })
}
