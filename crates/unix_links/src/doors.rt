use crate::options::LinkOptions;
use crate::sources::Source;
use mio::net::{UnixListener, UnixStream};
use mio::{Interest, Registry};
use std::fs::Files;
use std::io::ErrorKind;
use std::net::Net;
use std::os::fd::{AsFd, AsRawFd, OwnedFd};
use std::os::unix::fs::FileTypeExt;
use std::os::unix::net;
use std::os::unix::net::{SocketAddr, SocketAddrExt};
use std::time::Duration;
use std::{fs, io, thread};

/// The mode of a socket that only its owner can connect to.
const PRIVATE: u32 = 0o600;

/// How often a name is tried that another process has, and how many milliseconds lie between.
const TRIES: u64 = 20;

const PAUSE: u64 = 100;

/// How many may wait at the abstract name until they are taken in: few, so that nobody waits long behind
/// a flood of strangers. At a path there come none, and as many wait as the system allows.
const FEW: i32 = 8;

const ALL: i32 = -1;

fn check(status: i32) -> io::Result<()> {
    if status < 0 {
        Err(io::Error::from_raw_os_error(os::errno()))
    } else {
        Ok(())
    }
}

/// Listens on a bound socket, at which so many may wait.
fn listening(socket: OwnedFd, waiting: i32) -> io::Result<UnixListener> {
    check(libc::net::listen(socket.as_raw_fd(), waiting))?;
    let listener = net::UnixListener::from(socket);
    listener.set_nonblocking(true)?;
    Ok(UnixListener::from_std(listener))
}

/// Removes a socket on which nobody listens any more. One that is taken, and any other file, stays.
fn make_way<R: Files + Net>(rt: &R, path: &str) -> io::Result<()> {
    match fs::symlink_metadata(rt, path) {
        Ok(found) if found.file_type().is_socket() => {}
        Ok(_) => return Err(io::Error::from(ErrorKind::AlreadyExists)),
        Err(error) if error.kind() == ErrorKind::NotFound => return Ok(()),
        Err(error) => return Err(error),
    }
    match UnixStream::connect(rt, path) {
        Err(error) if error.kind() == ErrorKind::ConnectionRefused => fs::remove_file(rt, path),
        _ => Err(io::Error::from(ErrorKind::AddrInUse)),
    }
}

/// Listens at a path, to which nobody but the owner can connect.
pub fn private_listener<R: Files + Net>(rt: &R, path: &str) -> io::Result<UnixListener> {
    let addr = SocketAddr::from_pathname(path)?;
    make_way(rt, path)?;
    let socket = rt.unix_socket()?;
    // Linux gives the file the mode of the socket, so it never has another.
    check(libc::fchmod(socket.as_raw_fd(), PRIVATE))?;
    rt.bind_unix(socket.as_fd(), &addr)?;
    listening(socket, ALL)
}

/// Takes a name of Linux's abstract namespace, which has no permissions. The name is free again as soon
/// as its process has ended.
fn abstract_name<R: Files + Net>(rt: &R, name: &str) -> io::Result<OwnedFd> {
    let socket = rt.unix_socket()?;
    rt.bind_unix(socket.as_fd(), &SocketAddr::from_abstract_name(name)?)?;
    Ok(socket)
}

/// The door with an abstract name.
#[derive(Drop)]
pub enum Hidden {
    Open(UnixListener),
    /// Nobody can connect. The name is held so that nobody else takes it.
    Held(OwnedFd),
}

impl Hidden {
    /// Takes the name, and listens there unless nobody is to connect to it.
    pub fn open<R: Files + Net>(rt: &R, name: &str, is_private: bool) -> io::Result<Hidden> {
        let socket = abstract_name(rt, name)?;
        if is_private {
            return Ok(Hidden::Held(socket));
        }
        Ok(Hidden::Open(listening(socket, FEW)?))
    }

    /// Has the system tell when somebody comes.
    pub fn watch(&mut self, registry: &Registry) -> io::Result<()> {
        match self {
            Hidden::Open(hidden) => {
                registry.register(hidden, Source::Hidden.token(), Interest::READABLE)
            }
            Hidden::Held(_) => Ok(()),
        }
    }

    /// The next client here.
    pub fn next_client(&self) -> io::Result<UnixStream> {
        match self {
            Hidden::Open(hidden) => Ok(hidden.accept()?.0),
            Hidden::Held(_) => Err(io::Error::from(ErrorKind::WouldBlock)),
        }
    }
}

/// Why the doors didn't open.
#[derive(Drop)]
pub struct Refusal<'a> {
    pub path: &'a str,
    pub error: io::Error,
}

/// The sockets at which clients and operators come in, and the files of two of them.
#[derive(Drop)]
pub struct Doors {
    clients: UnixListener,
    hidden: Hidden,
    control: UnixListener,
    clients_path: String,
    control_path: String,
}

impl Doors {
    /// Opens the doors. A program that is being started holds the sockets of the manager that starts
    /// it until it runs, also where that one is killed meanwhile; so names that are taken are tried
    /// again for two seconds.
    pub fn open<'a>(
        rt: HostRuntime,
        socket: &'a str,
        control: &'a str,
        options: LinkOptions,
    ) -> Result<Doors, Refusal<'a>> {
        for _ in 0..TRIES {
            match Doors::try_open(rt, socket, control, options) {
                Err(refusal) if refusal.error.kind() == ErrorKind::AddrInUse => {
                    thread::sleep(&rt, Duration::from_millis(PAUSE));
                }
                opened => return opened,
            }
        }
        Doors::try_open(rt, socket, control, options)
    }

    /// Opens the clients' two doors and the operators' one. The abstract name comes first: a living
    /// manager holds it, so a second one ends here and touches no file of the first.
    fn try_open<'a>(
        rt: HostRuntime,
        socket: &'a str,
        control: &'a str,
        options: LinkOptions,
    ) -> Result<Doors, Refusal<'a>> {
        let clients_path = at(socket, copied(rt, socket))?;
        let control_path = at(control, copied(rt, control))?;
        let hidden = at(socket, Hidden::open(&rt, socket, options.is_private))?;
        let clients = at(socket, private_listener(&rt, socket))?;
        match private_listener(&rt, control) {
            Ok(control) => Ok(Doors {
                clients,
                hidden,
                control,
                clients_path,
                control_path,
            }),
            Err(error) => {
                let _ = fs::remove_file(&rt, socket);
                Err(Refusal {
                    path: control,
                    error,
                })
            }
        }
    }

    /// Removes the files. The abstract name must still be held then: else they could be those of the
    /// next manager.
    pub fn remove_files(&self, rt: &HostRuntime) {
        let _ = fs::remove_file(rt, self.clients_path.as_str());
        let _ = fs::remove_file(rt, self.control_path.as_str());
    }

    /// Has the system tell when somebody comes.
    pub fn watch(&mut self, registry: &Registry) -> io::Result<()> {
        let readable = Interest::READABLE;
        registry.register(&mut self.clients, Source::Clients.token(), readable)?;
        self.hidden.watch(registry)?;
        registry.register(&mut self.control, Source::Control.token(), readable)
    }

    /// The next client at one of the clients' doors.
    pub fn next_client(&self, door: Source) -> io::Result<UnixStream> {
        match door {
            Source::Hidden => self.hidden.next_client(),
            _ => Ok(self.clients.accept()?.0),
        }
    }

    pub fn next_operator(&self) -> io::Result<UnixStream> {
        Ok(self.control.accept()?.0)
    }
}

fn copied(rt: HostRuntime, path: &str) -> io::Result<String> {
    Ok(path.to_string(rt.alloc())?)
}

fn at<T: Drop>(path: &str, outcome: io::Result<T>) -> Result<T, Refusal<'_>> {
    match outcome {
        Ok(found) => Ok(found),
        Err(error) => Err(Refusal { path, error }),
    }
}
