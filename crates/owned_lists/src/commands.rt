use crate::{Duplicate, NoMemory, Octets, OctetsList, PairList};

/// A command line with where and in what environment it is run.
#[derive(Debug, Drop)]
pub struct Command {
    /// The program, then its arguments.
    pub words: OctetsList,
    /// The folder to run it in; empty where none is set.
    pub directory: Octets,
    /// Names and values that are set over the inherited environment.
    pub environment: PairList,
}

impl Duplicate for Command {
    fn copy(&self) -> Result<Command, NoMemory> {
        Ok(Command {
            words: self.words.copy()?,
            directory: self.directory.copy()?,
            environment: self.environment.copy()?,
        })
    }
}
