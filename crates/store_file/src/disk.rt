ghost use Rattle.std.specs.Prelude.{◌≡◌, ◌≤◌, true, None, IsErr, OnErr};
ghost use Rattle.sm_world.specs.Outside.{Rose};
ghost use Rattle.store_file.specs.Untold.{disk_outside};
ghost use Rattle.store_file.specs.Losses.{SameStore, has_store};

use crate::files::{hold_name, replace, take_store};
use sm_world::{Disk, Failed, Failure, Told};
use std::fs::File;
use std::io;
use std::io::ErrorKind;
use std::os::unix::fs::FileExt;

/// The store's file, which is ours as long as this lives.
#[derive(Drop)]
struct Store {
    path: String,
    file: File,
}

/// A small file that is ours to replace, as long as this lives.
#[derive(Drop)]
struct Published {
    path: String,
    _lock: File,
}

/// The store in a file that no other process of ours takes, and small files beside it. What they hold
/// is told to nobody; each fault is counted.
///
/// A missing store is made with zeros, and stands under its name only when it is whole on the disk. One
/// that was taken stays taken: to attach it once more changes nothing. After a sync that failed nothing
/// is read or written any more, and no store is taken, since the system may have dropped what it
/// couldn't write.
///
/// A small file is replaced only where no other living process of ours has replaced it.
#[derive(Drop)]
pub struct FileDisk {
    rt: HostRuntime,
    store: Option<Store>,
    /// The small file that was replaced last.
    published: Option<Published>,
    /// The size of a store that is made anew.
    new_size: u64,
    size: u64,
    is_lost: bool,
    faults: u64,
}

impl FileDisk {
    /// A disk whose store isn't taken yet. A missing one will be made with this size.
    pub fn new(rt: HostRuntime, new_size: u64) -> FileDisk {
        FileDisk {
            rt,
            store: None,
            published: None,
            new_size,
            size: 0,
            is_lost: false,
            faults: 0,
        }
    }

    /// Has a small file for us alone from here on.
    fn hold(&mut self, path: &str) -> io::Result<()>
        ensures untouched { disk_outside self.new ≡ disk_outside self.old }
    {
        if let Some(published) = &self.published {
            if published.path.as_str() == path {
                return Ok(());
            }
        }
        let lock = hold_name(self.rt, path)?;
        self.published = Some(Published {
            path: path.to_string(self.rt.alloc())?,
            _lock: lock,
        });
        Ok(())
    }

    /// Puts these bytes in the place of a small file.
    fn put(&mut self, path: &str, bytes: &[u8]) -> io::Result<()>
        ensures untouched { disk_outside self.new ≡ disk_outside self.old }
    {
        self.hold(path)?;
        replace(self.rt, path, bytes, None)
    }

    /// Whether the store at this path was taken.
    fn has(&self, path: &str) -> bool
        ensures { result ≡ has_store self.now path.now }
    {
        match &self.store {
            Some(store) => store.path.as_str() == path,
            None => false,
        }
    }

    /// Takes the store at this path, and tells its size.
    fn take(&self, path: &str) -> io::Result<(Store, u64)> {
        let name = path.to_string(self.rt.alloc())?;
        let (file, size) = take_store(self.rt, path, self.new_size)?;
        Ok((Store { path: name, file }, size))
    }

    /// The file, as long as it can be relied on.
    fn good_file(&self) -> Option<&File>
        ensures lost { self.now.is_lost ≡ true → result ≡ None }
    {
        if self.is_lost {
            return None;
        }
        match &self.store {
            Some(store) => Some(&store.file),
            None => None,
        }
    }

    /// Tells the user what the system said where a call failed on the store.
    fn tell(&self, call: &str, error: io::Error) {
        if let Some(store) = &self.store {
            let _ = eprintln!(self.rt; "smd: cannot {call} {}: {error}", store.path);
        }
    }

    fn count_one(&mut self)
        ensures rose { Rose self.old.faults self.new.faults }
        ensures not_fallen { self.old.faults ≤ self.new.faults }
        ensures same { SameStore self.old self.new }
    {
        self.faults = self.faults.saturating_add(1);
    }

    fn read_whole(&self) -> io::Result<Vec<u8>> {
        let mut bytes = vec![in self.rt.alloc(); 0u8; self.size as usize]?;
        if let Some(file) = self.good_file() {
            file.read_exact_at(bytes.as_mut_slice(), 0)?;
        }
        Ok(bytes)
    }

    /// All bytes of the store that was taken at this path; none where its size is another than that of
    /// one that is made anew.
    pub fn contents(&mut self, path: &str) -> Result<Vec<u8>, Failure>
        ensures told { (disk_outside self.new).told ≡ (disk_outside self.old).told }
        ensures cause { result ≡ Err Failure.Failed → Rose self.old.faults self.new.faults }
        ensures same { SameStore self.old self.new }
    {
        if self.size != self.new_size {
            return Ok(Vec::new(self.rt.alloc()));
        }
        match self.read_whole() {
            Ok(bytes) => Ok(bytes),
            Err(error) => Err(self.failure(path, error)),
        }
    }

    /// The failure for an error at a path, which is counted where it isn't want of memory.
    fn failure(&mut self, path: &str, error: io::Error) -> Failure
        ensures cause { result ≡ Failure.Failed → Rose self.old.faults self.new.faults }
        ensures not_fallen { self.old.faults ≤ self.new.faults }
        ensures same { SameStore self.old self.new }
    {
        if error.kind() == ErrorKind::OutOfMemory {
            return Failure::NoMemory;
        }
        let _ = eprintln!(self.rt; "smd: cannot use {path}: {error}");
        self.count_one();
        Failure::Failed
    }
}

impl Told for FileDisk {
    ghost outside = { disk_outside };
}

impl Disk for FileDisk {
    ghost use Rattle.std.specs.Prelude.{None, ◌∷◌, [], length, is_err, OnOk};
    ghost use Rattle.std.proofs.Common.{refl};
    ghost use Rattle.sm_world.specs.Disk.{untold_size, has_failed, IsFailedWrite, IsFailedSync, MayRead, KeepsToldSize, UsesDisk};
    ghost use Rattle.sm_world.specs.Outside.{Added, adds};
    ghost use Rattle.sm_world.specs.declared.effects.Effect.TheVariants.{Wrote, Synced};

    ghost sized = { λ disk first told. untold_size disk.size first None refl told };

    fn attach(&mut self, path: &str) -> Result<(), Failure>
        ensures effects { (disk_outside self.new).told ≡ (disk_outside self.old).told }
        ensures size { KeepsToldSize (disk_outside self.old) (disk_outside self.new) }
        ensures uses { UsesDisk (disk_outside self.old) (disk_outside self.new) (has_failed result) }
        ensures same { OnErr result (SameStore self.old self.new) }
        ensures lost { self.old.is_lost ≡ true → IsErr result }
        ensures again { has_store self.old path.now ≡ true → SameStore self.old self.new }
    {
        if self.is_lost {
            self.count_one();
            return Err(Failure::Failed);
        }
        if self.has(path) {
            return Ok(());
        }
        match self.take(path) {
            Ok((store, size)) => {
                self.store = Some(store);
                self.size = size;
                Ok(())
            }
            Err(error) => Err(self.failure(path, error)),
        }
    }

    fn size(&mut self) -> Result<u64, Failure> {
        Ok(self.size)
    }

    fn read_at(&mut self, at: u64, into: &mut [u8]) -> Result<(), Failure>
        ensures effects { (disk_outside self.new).told ≡ (disk_outside self.old).told }
        ensures size { (disk_outside self.new).size ≡ (disk_outside self.old).size }
        ensures bytes { OnOk result (MayRead (disk_outside self.old) at into.new) }
        ensures uses { UsesDisk (disk_outside self.old) (disk_outside self.new) (has_failed result) }
        ensures same { SameStore self.old self.new }
        ensures lost { self.old.is_lost ≡ true → IsErr result }
    {
        if let Some(file) = self.good_file() {
            match file.read_exact_at(into, at) {
                Ok(()) => return Ok(()),
                Err(error) => self.tell("read", error),
            }
        }
        self.count_one();
        Err(Failure::Failed)
    }

    fn write_at(&mut self, at: u64, bytes: &[u8]) -> Result<(), Failed>
        ensures ok { OnOk result ((disk_outside self.new).told
            ≡ adds (disk_outside self.old).told (Wrote at bytes.now ∷ [])) }
        ensures err { OnErr result
            (Added (disk_outside self.old).told (disk_outside self.new).told
            (IsFailedWrite at (length bytes.now))) }
        ensures size { (disk_outside self.new).size ≡ (disk_outside self.old).size }
        ensures uses { UsesDisk (disk_outside self.old) (disk_outside self.new) (is_err result) }
        ensures same { SameStore self.old self.new }
        ensures lost { self.old.is_lost ≡ true → IsErr result }
    {
        if let Some(file) = self.good_file() {
            match file.write_all_at(bytes, at) {
                Ok(()) => return Ok(()),
                Err(error) => self.tell("write", error),
            }
        }
        self.count_one();
        Err(Failed)
    }

    fn sync(&mut self) -> Result<(), Failed>
        ensures ok { OnOk result ((disk_outside self.new).told
            ≡ adds (disk_outside self.old).told (Synced ∷ [])) }
        ensures err { OnErr result
            (Added (disk_outside self.old).told (disk_outside self.new).told IsFailedSync) }
        ensures size { (disk_outside self.new).size ≡ (disk_outside self.old).size }
        ensures uses { UsesDisk (disk_outside self.old) (disk_outside self.new) (is_err result) }
        ensures loses { OnErr result (self.new.is_lost ≡ true) }
        ensures lost { self.old.is_lost ≡ true → IsErr result }
    {
        if let Some(file) = self.good_file() {
            match file.sync_data() {
                Ok(()) => return Ok(()),
                Err(error) => self.tell("sync", error),
            }
        }
        self.is_lost = true;
        self.count_one();
        Err(Failed)
    }

    fn publish(&mut self, path: &str, bytes: &[u8]) -> Result<(), Failure> {
        match self.put(path, bytes) {
            Ok(()) => Ok(()),
            Err(error) => Err(self.failure(path, error)),
        }
    }
}
