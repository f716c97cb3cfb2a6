use mio::net::{UnixListener, UnixStream};
use mio::{Interest, Registry};
use std::fs::Files;
use std::net::Net;
use std::os::unix::fs::MetadataExt;
use std::{fs, io};
use unix_links::{Hidden, Source, private_listener};

/// The sockets at which clients come in.
#[derive(Drop)]
pub struct Doors {
    clients: UnixListener,
    hidden: Hidden,
    path: String,
}

impl Doors {
    /// Opens both doors, or that with a path alone, where nobody is to connect to the abstract name. That
    /// one comes first: a living relay holds it, so a second one ends here and doesn't touch the first
    /// one's file.
    pub fn open(rt: HostRuntime, socket: &str, is_private: bool) -> io::Result<Doors> {
        let path = socket.to_string(rt.alloc())?;
        let hidden = Hidden::open(&rt, socket, is_private)?;
        let clients = private_listener(&rt, socket)?;
        Ok(Doors {
            clients,
            hidden,
            path,
        })
    }

    /// Has the system tell when somebody comes.
    pub fn watch(&mut self, registry: &Registry) -> io::Result<()> {
        let readable = Interest::READABLE;
        registry.register(&mut self.clients, Source::Clients.token(), readable)?;
        self.hidden.watch(registry)
    }

    /// The next client at one of the doors.
    pub fn next_client(&self, door: Source) -> io::Result<UnixStream> {
        if door == Source::Hidden {
            return self.hidden.next_client();
        }
        Ok(self.clients.accept()?.0)
    }

    /// Whether a path leads back to this door.
    pub fn is_at(&self, rt: &impl Files, path: &str) -> bool {
        match (fs::metadata(rt, self.path.as_str()), fs::metadata(rt, path)) {
            (Ok(own), Ok(other)) => own.dev() == other.dev() && own.ino() == other.ino(),
            _ => false,
        }
    }

    /// Removes the file.
    pub fn remove_file(&self, rt: &impl Files) {
        let _ = fs::remove_file(rt, self.path.as_str());
    }
}
