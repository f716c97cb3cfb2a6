//! `smclient`, a client that joins a session.
#![tactic(auto)]

use program_frame::{OwnTexts, read_words};
use program_texts::SMCLIENT;
use smclient_app::smclient_main;
use std::process::ExitCode;
use unix_peer::UnixPeer;

const TEXTS: OwnTexts = OwnTexts {
    help: "smclient, a client that joins a session\n\n\
        usage: smclient --socket PATH --authority FILE [options]\n\n\
        \x20 --socket PATH      the socket of the session manager\n\
        \x20 --authority FILE   the file that has its cookie\n\
        \x20 --id ID            the ID that the client had before, at most 512 bytes\n\
        \x20 --program NAME     the program as which it shows itself (smclient)\n\
        \x20 --saves N          closes after N saves, from 1 to 1000000 (1)\n\
        \x20 --interact         talks to the user in each save that lets it\n\
        \x20 --phase-two        saves when all others are done\n\n\
        as: smclient --socket s --authority a --program editor --saves 2 --interact\n\n\
        usage: smclient --help      shows this\n\
        \x20      smclient --version   shows the version\n",
    version: SMCLIENT,
    no_memory: "smclient: no memory\n",
};

fn main(rt: HostRuntime) -> ExitCode {
    let alloc = rt.alloc();
    let words = read_words(&rt);
    let mut world = UnixPeer::new(rt);
    let status = match TEXTS.begin(words, &mut world) {
        Ok(words) => smclient_main(alloc, words.as_slice(), &mut world, u64::MAX),
        Err(status) => status,
    };
    ExitCode::from(status)
}
