ghost use Rattle.std.specs.Prelude.{◌≤◌, IfOk, length, string_bytes};

use ice_cookie::Cookie;
use std::env::VarError;
use std::io::ErrorKind;
use std::random::RandomSource;
use std::{env, io};

/// How many bytes a host's name can have at most.
const HOST_LIMIT: usize = 255;

/// A cookie that nobody can guess, by the system's source of randomness.
pub fn random_cookie(rt: &HostRuntime) -> io::Result<Cookie> {
    let mut bytes = [0u8; 16];
    rt.fill_bytes(&mut bytes)?;
    Ok(Cookie(bytes))
}

/// The name under which programs find this host: the variable HOSTNAME. Where it is missing, empty,
/// no text or longer than 255 bytes, the name is `localhost`.
pub fn host_name(rt: &HostRuntime) -> io::Result<String>
    ensures length { IfOk result (λ name. length (string_bytes name) ≤ 255) }
{
    match env::var(rt, "HOSTNAME") {
        Ok(name) if !name.is_empty() && name.len() <= HOST_LIMIT => Ok(name),
        Err(VarError::OutOfMemory) => Err(io::Error::from(ErrorKind::OutOfMemory)),
        _ => Ok("localhost".to_string(rt.alloc())?),
    }
}
