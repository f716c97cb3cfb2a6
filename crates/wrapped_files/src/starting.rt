use owned_lists::Command;
use program_spawner::prepared;
use std::io;
use std::process::{Child, Stdio};

/// Starts a program. It knows no manager, so that one that does know sessions doesn't join twice, and
/// it reads nothing.
pub fn start(rt: HostRuntime, command: &Command) -> io::Result<Child> {
    let mut started = prepared(rt.alloc(), command)?;
    started.env_remove("SESSION_MANAGER")?;
    started.stdin(Stdio::null());
    started.spawn(&rt)
}
