ghost use Rattle.std.specs.Prelude.{◌≡◌, ◌≤◌, length, IfOk};
ghost use Rattle.desktop_world.specs.Untold.{world_outside};

use checkpoint_records::{Book, choose};
use checkpoint_slots::{STORE_BYTES, Steady, StoreFault};
use outer_world::Outer;
use owned_lists::{Command, NoMemory, Octets};
use program_frame::StandardConsole;
use program_spawner::ProgramSpawner;
use session_watch::Excusing;
use sm_world::{Conn, Console, Disk, Event, Failed, Failure, Links, Spawner, Told};
use start_waves::{RankedList, Turn, Waves, ranks_of};
use std::alloc::Global;
use store_file::FileDisk;
use unix_links::{LinkOptions, SocketLinks, refused};
use unix_peer::read_file;
use world_time::Ticking;

/// The bytes of a file of at most 65,536. The user is told why they can't be had.
fn bytes_at(rt: &HostRuntime, path: &str) -> Result<Octets, Failure>
    ensures { IfOk result (λ bytes. length bytes ≤ 65536) }
{
    match read_file(rt, path) {
        Ok(bytes) => Ok(Octets::from_vec(bytes)),
        Err(error) => {
            let _ = eprintln!(rt; "smnest: cannot read {path}: {error}");
            Err(refused(error))
        }
    }
}

/// The programs of the session of this name in a book, with their priorities.
fn programs_of(alloc: Global, book: Book, session: &[u8]) -> Result<RankedList, NoMemory> {
    let book = choose(alloc, book, session)?;
    ranks_of(alloc, book.entries.as_slice())
}

/// The outside of a session manager on a desktop. What happens there is told to nobody; each fault is
/// counted.
///
/// It learns what the programs of the session are to know from the calls that are made of it: where the
/// manager listens, and where the authority file lies. A line that is printed after an order was heard,
/// and before the next event is asked for, goes to the order's operator too.
///
/// Where waves were planned, a program of a later one that is started before the first event is asked for
/// is handed over alone. Its wave begins once those of the one before have come, or two seconds later, as an
/// event is asked for; so time is told while a wave waits.
#[derive(Drop)]
pub struct DesktopWorld {
    rt: HostRuntime,
    host: String,
    disk: FileDisk,
    links: SocketLinks,
    spawner: ProgramSpawner,
    console: StandardConsole,
    waves: Waves,
    /// Whether somebody above waits for time.
    wanted: bool,
}

impl DesktopWorld {
    /// Nothing is opened yet. Programs find the manager under this name of the host.
    pub fn new(rt: HostRuntime, host: String) -> DesktopWorld {
        DesktopWorld::with_options(rt, host, LinkOptions::new())
    }

    /// The same, with what was chosen of the links.
    pub fn with_options(rt: HostRuntime, host: String, options: LinkOptions) -> DesktopWorld {
        DesktopWorld {
            rt,
            host,
            disk: FileDisk::new(rt, STORE_BYTES),
            links: SocketLinks::with_options(rt, options),
            spawner: ProgramSpawner::new(rt),
            console: StandardConsole::new(rt),
            waves: Waves::new(rt.alloc(), RankedList::new(rt.alloc())),
            wanted: false,
        }
    }

    /// Takes the store before the session does, and gives its bytes; none where it has another size
    /// than a store. The session then goes on with this very file.
    pub fn take_store(&mut self, path: &str) -> Result<Octets, Failure>
        ensures told { (world_outside self.new).told ≡ (world_outside self.old).told }
    {
        self.disk.attach(path)?;
        let bytes = self.disk.contents(path)?;
        Ok(Octets::from_vec(bytes))
    }

    /// Takes the store before the session does, and has the programs of this session's checkpoint start in
    /// waves, by the priorities that they have there. Over a store that doesn't open none are planned. The
    /// session then goes on with this very file.
    pub fn plan_waves(&mut self, path: &str, session: &[u8]) -> Result<(), Failure>
        ensures told { (world_outside self.new).told ≡ (world_outside self.old).told }
    {
        self.disk.attach(path)?;
        let alloc = self.rt.alloc();
        match Steady::recover_from(alloc, &mut self.disk) {
            Ok((_, book)) => {
                self.waves = Waves::new(alloc, programs_of(alloc, book, session)?);
                Ok(())
            }
            Err(StoreFault::DiskFault) => Err(Failure::Failed),
            Err(StoreFault::NoMemory) => Err(Failure::NoMemory),
            // The session itself says so.
            Err(_) => Ok(()),
        }
    }

    /// Starts the programs of the wave that is due, if one is. What was sent before goes out first.
    fn start_wave(&mut self) -> Result<(), NoMemory>
        ensures untouched { world_outside self.new ≡ world_outside self.old }
    {
        let wave = self.waves.go_on()?;
        if wave.as_slice().is_empty() {
            return Ok(());
        }
        self.links.flush()?;
        self.start_each(wave.as_slice())
    }

    /// Starts the programs of a wave. None waits for one that can't be started.
    fn start_each(&mut self, wave: &[Command]) -> Result<(), NoMemory>
        ensures untouched { world_outside self.new ≡ world_outside self.old }
    {
        for command in wave {
            if !self.spawner.start_later(command)? {
                self.waves.settle();
            }
        }
        Ok(())
    }

    /// Notes what the next wave waits for.
    fn note(&mut self, event: &Event)
        ensures untouched { world_outside self.new ≡ world_outside self.old }
    {
        match event {
            Event::Joined(_) => self.waves.settle(),
            Event::Tick(milliseconds) => self.waves.pass(*milliseconds),
            _ => {}
        }
    }

    /// Closes the sockets and removes their files.
    pub fn close(&mut self)
        ensures untouched { world_outside self.new ≡ world_outside self.old }
    {
        self.links.close();
    }
}

impl Told for DesktopWorld {
    ghost outside = { world_outside };
}

impl Excusing for DesktopWorld {
    fn excuse(&mut self, conn: Conn, excused: bool) {
        self.links.excuse(conn, excused);
    }
}

impl Disk for DesktopWorld {
    ghost use Rattle.std.specs.Prelude.{None};
    ghost use Rattle.std.proofs.Common.{refl};
    ghost use Rattle.sm_world.specs.Disk.{untold_size};

    ghost sized = { λ world first told. untold_size world.disk.size first None refl told };

    fn attach(&mut self, path: &str) -> Result<(), Failure> {
        self.disk.attach(path)
    }

    fn size(&mut self) -> Result<u64, Failure> {
        self.disk.size()
    }

    fn read_at(&mut self, at: u64, into: &mut [u8]) -> Result<(), Failure> {
        self.disk.read_at(at, into)
    }

    fn write_at(&mut self, at: u64, bytes: &[u8]) -> Result<(), Failed> {
        self.disk.write_at(at, bytes)
    }

    fn sync(&mut self) -> Result<(), Failed> {
        self.disk.sync()
    }

    /// The file that is published is the programs' ICEAUTHORITY.
    fn publish(&mut self, path: &str, bytes: &[u8]) -> Result<(), Failure> {
        let authority = path
            .to_string(*self.host.allocator())
            .map_err(NoMemory::from)?;
        self.disk.publish(path, bytes)?;
        self.spawner.set_authority(authority);
        Ok(())
    }
}

impl Ticking for DesktopWorld {
    fn keep_ticking(&mut self, wanted: bool) {
        self.wanted = wanted;
    }
}

impl Links for DesktopWorld {
    /// The programs' SESSION_MANAGER names this socket.
    fn listen(&mut self, socket: &str, control: &str) -> Result<(), Failure> {
        let alloc = *self.host.allocator();
        let names = format!(in alloc; "local/{}:{socket}", self.host).map_err(NoMemory::from)?;
        self.links.listen(socket, control)?;
        self.spawner.set_session_manager(names);
        Ok(())
    }

    /// Takes leave of the programs that have ended, too, and starts the wave that is due.
    fn next(&mut self) -> Result<Event, Failure> {
        self.spawner.reap();
        self.start_wave()?;
        self.links
            .keep_ticking(self.wanted || self.waves.are_left());
        let event = self.links.next()?;
        self.note(&event);
        Ok(event)
    }

    fn send(&mut self, to: Conn, bytes: &[u8]) -> Result<(), Failure> {
        self.links.send(to, bytes)
    }

    fn shut(&mut self, to: Conn) -> Result<(), Failure> {
        self.links.shut(to)
    }
}

impl Outer for DesktopWorld {
    fn open_outer(&mut self, path: &str) -> Result<(), Failure> {
        self.links.open_outer(path)
    }

    fn fetch(&mut self, _alloc: Global, path: &str) -> Result<Octets, Failure> {
        let fetched = bytes_at(&self.rt, path);
        self.links.count(fetched)
    }
}

impl Spawner for DesktopWorld {
    /// What was sent before goes out first. A program that waits for its wave counts as started.
    fn start(&mut self, command: &Command) -> Result<bool, NoMemory> {
        self.links.flush()?;
        let turn = self.waves.take(command)?;
        if turn == Turn::Later {
            return Ok(true);
        }
        let answer = self.spawner.start(command);
        if turn == Turn::First && matches!(&answer, Ok(false)) {
            self.waves.settle();
        }
        answer
    }
}

impl Console for DesktopWorld {
    fn read(&mut self, into: &mut [u8]) -> Result<usize, Failure> {
        self.console.read(into)
    }

    /// What was sent before goes out first.
    fn print(&mut self, bytes: &[u8]) -> Result<(), Failure> {
        self.links.flush()?;
        self.links.answer(bytes);
        self.console.print(bytes)
    }
}
