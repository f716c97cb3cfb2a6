//! `smwrap`, a session for a program that knows none.
#![tactic(auto)]

mod line;

use line::prepared;
use program_frame::{OwnTexts, read_words};
use program_texts::SMWRAP;
use smwrap_app::smwrap_main;
use std::process::ExitCode;
use unix_peer::UnixPeer;
use wrapped_files::WrappedFiles;

const TEXTS: OwnTexts = OwnTexts {
    help: "smwrap, a session for a program that knows none\n\n\
        usage: smwrap --socket PATH --authority FILE --state FILE --from N [--id ID] -- PROGRAM [ARGUMENT..]\n\n\
        \x20 --socket PATH      the socket of the session manager\n\
        \x20 --authority FILE   the file that has its cookie\n\
        \x20 --state FILE       the file in which the program keeps its state\n\
        \x20 --from N           the number of the copy with which it begins, or 0\n\
        \x20 --id ID            the ID that it had in an earlier session\n\n\
        as: smwrap --socket \"${SESSION_MANAGER#*:}\" --authority \"$ICEAUTHORITY\" --state notes.txt --from 0 -- mousepad notes.txt\n\n\
        usage: smwrap --help      shows this\n\
        \x20      smwrap --version   shows the version\n",
    version: SMWRAP,
    no_memory: "smwrap: no memory\n",
};

/// The status where the state failed before the program was started.
const STATE_FAILED: u8 = 13;

/// Runs what the words ask for, with copies that have places of their own.
fn run(rt: HostRuntime, words: &[String], files: &mut WrappedFiles) -> u8 {
    let alloc = rt.alloc();
    let mut peer = UnixPeer::new(rt);
    match prepared(rt, words, files) {
        Ok(Some(words)) => smwrap_main(alloc, words.as_slice(), &mut peer, files, u64::MAX),
        Ok(None) => smwrap_main(alloc, words, &mut peer, files, u64::MAX),
        Err(error) => {
            let _ = eprintln!(rt; "smwrap: cannot tell where the state is: {error}");
            STATE_FAILED
        }
    }
}

fn main(rt: HostRuntime) -> ExitCode {
    let words = read_words(&rt);
    let mut files = WrappedFiles::new(rt);
    let status = match TEXTS.begin(words, &mut files) {
        Ok(words) => run(rt, words.as_slice(), &mut files),
        Err(status) => status,
    };
    ExitCode::from(status)
}
