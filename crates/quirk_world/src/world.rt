ghost use Rattle.std.specs.Prelude.{◌≡◌, ◌≤◌, length, IfOk};
ghost use Rattle.sm_world.specs.Events.{HasPieceSize};
ghost use Rattle.sm_world.specs.Outside.{UsesLinks, UsesSpawner, adds, of_ok};
ghost use Rattle.sm_world.specs.declared.effects.Effect.TheVariants.{Started};
ghost use Rattle.quirk_world.specs.Untold.{around};

use crate::follower::Sending;
use crate::layer::Layer;
use crate::news::Errand;
use outer_world::Outer;
use owned_lists::{Command, NoMemory, Octets};
use session_watch::Excusing;
use sm_world::{Conn, Console, Disk, Event, Failed, Failure, Links, Spawner, Told};
use std::alloc::Global;
use world_time::Ticking;

/// A world whose clients are taken to mean what programs as they are mean. What is handed on of it
/// is told to nobody.
///
/// An event of which nothing is handed on is answered by a tick of no time.
#[derive(Drop)]
pub struct QuirkWorld<W: Drop> {
    inner: W,
    layer: Layer,
    /// How often what is started through this world wasn't. What it starts itself isn't counted.
    unstarted: u64,
}

impl<W: Drop> QuirkWorld<W> {
    /// Around this world, in which nobody is connected yet.
    pub fn new(alloc: Global, inner: W) -> QuirkWorld<W>
        ensures { result.inner ≡ inner }
    {
        QuirkWorld {
            inner,
            layer: Layer::new(alloc),
            unstarted: 0,
        }
    }

    /// The world itself.
    pub fn into_inner(self) -> W
        ensures { result ≡ self.inner }
    {
        let QuirkWorld { inner, .. } = self;
        inner
    }
}

impl<W: Told + Drop> Told for QuirkWorld<W> {
    ghost outside = { λ world. around world.unstarted (W.outside world.inner) };
}

impl<W: Links + Excusing + Spawner + Drop> QuirkWorld<W> {
    fn run(&mut self, errand: Errand) -> Result<(), Failure>
        ensures { UsesLinks (around self.old.unstarted (W.outside self.old.inner))
            (around self.new.unstarted (W.outside self.new.inner)) result }
    {
        match errand {
            Errand::Send(conn, bytes) => self.inner.send(conn, bytes.as_slice()),
            Errand::Excuse(conn, excused) => {
                self.inner.excuse(conn, excused);
                Ok(())
            }
            Errand::Start(_, command) => {
                self.inner.start(&command)?;
                Ok(())
            }
        }
    }
}

impl<W: Links + Excusing + Ticking + Spawner + Drop> Links for QuirkWorld<W> {
    fn listen(&mut self, socket: &str, control: &str) -> Result<(), Failure> {
        self.inner.listen(socket, control)
    }

    fn next(&mut self) -> Result<Event, Failure> {
        if self.layer.has_more() {
            if let Some(errand) = self.layer.next_errand() {
                self.run(errand)?;
                return Ok(self.layer.next_waiting());
            }
            if let Some(event) = self.layer.waiting() {
                return Ok(event);
            }
        }
        let waits = self.layer.waits();
        self.inner.keep_ticking(waits);
        let event = self.inner.next()?;
        if self.layer.lets_pass(&event) {
            return Ok(event);
        }
        Ok(self.layer.hand_on(event)?)
    }

    fn send(&mut self, to: Conn, bytes: &[u8]) -> Result<(), Failure> {
        if self.layer.sends_on(to, bytes) {
            return self.inner.send(to, bytes);
        }
        match self.layer.tell(to, bytes)? {
            Sending::AsItIs => self.inner.send(to, bytes),
            Sending::Anew(anew) => self.inner.send(to, anew.as_slice()),
            Sending::Nothing => Ok(()),
        }
    }

    fn shut(&mut self, to: Conn) -> Result<(), Failure> {
        self.layer.shut(to);
        self.inner.shut(to)
    }
}

/// What comes and goes on the connection to an outer manager isn't looked at: it has joined nobody's session here.
impl<W: Outer + Drop> Outer for QuirkWorld<W> {
    fn open_outer(&mut self, path: &str) -> Result<(), Failure> {
        self.inner.open_outer(path)
    }

    fn fetch(&mut self, alloc: Global, path: &str) -> Result<Octets, Failure> {
        self.inner.fetch(alloc, path)
    }
}

impl<W: Disk + Drop> Disk for QuirkWorld<W> {
    ghost use Rattle.std.specs.Prelude.{None};
    ghost use Rattle.std.proofs.Common.{refl};
    ghost use Rattle.sm_world.specs.Disk.{untold_size};

    ghost sized = { λ world first told.
        untold_size (W.outside world.inner).size first None refl told };

    fn attach(&mut self, path: &str) -> Result<(), Failure> {
        self.inner.attach(path)
    }

    fn size(&mut self) -> Result<u64, Failure> {
        self.inner.size()
    }

    fn read_at(&mut self, at: u64, into: &mut [u8]) -> Result<(), Failure> {
        self.inner.read_at(at, into)
    }

    fn write_at(&mut self, at: u64, bytes: &[u8]) -> Result<(), Failed> {
        self.inner.write_at(at, bytes)
    }

    fn sync(&mut self) -> Result<(), Failed> {
        self.inner.sync()
    }

    fn publish(&mut self, path: &str, bytes: &[u8]) -> Result<(), Failure> {
        self.inner.publish(path, bytes)
    }
}

impl<W: Spawner + Drop> Spawner for QuirkWorld<W> {
    fn start(&mut self, command: &Command) -> Result<bool, NoMemory>
        ensures effects { (around self.new.unstarted (W.outside self.new.inner)).told
            ≡ adds (around self.old.unstarted (W.outside self.old.inner)).told
            (of_ok (Started command.now) result) }
        ensures uses { UsesSpawner (around self.old.unstarted (W.outside self.old.inner))
            (around self.new.unstarted (W.outside self.new.inner)) result }
        ensures inner { UsesSpawner (W.outside self.old.inner) (W.outside self.new.inner) result }
    {
        let has_started = self.inner.start(command)?;
        if !has_started {
            self.unstarted = self.unstarted.saturating_add(1);
        }
        Ok(has_started)
    }
}

impl<W: Console + Drop> Console for QuirkWorld<W> {
    fn read(&mut self, into: &mut [u8]) -> Result<usize, Failure> {
        self.inner.read(into)
    }

    fn print(&mut self, bytes: &[u8]) -> Result<(), Failure> {
        self.inner.print(bytes)
    }
}
