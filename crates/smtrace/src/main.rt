//! `smtrace`, which shows the traces of sessions, tells and draws them, and replays them.
#![tactic(auto)]

mod following;

use crate::following::{follow, followed};
use program_frame::{OwnTexts, StandardConsole, read_words};
use program_texts::SMTRACE;
use smtrace_app::smtrace_main;
use std::process::ExitCode;

const TEXTS: OwnTexts = OwnTexts {
    help: "smtrace, which shows the traces of sessions\n\n\
        usage: smtrace show < TRACE    shows each message of a trace\n\
        \x20                              as: smtrace show < examples/login.expected\n\
        \x20      smtrace read < TRACE    tells a trace for people\n\
        \x20                              as: smd rehearse < examples/logout.script | smtrace read\n\
        \x20      smtrace read --follow FILE\n\
        \x20                              tells a record while smd writes it\n\
        \x20      smtrace draw < TRACE    draws a trace as SVG\n\
        \x20                              as: smtrace draw < examples/login.expected > login.svg\n\
        \x20      smtrace replay < TRACE  says whether it is what the session machine does\n\
        \x20      smtrace --help          shows this\n\
        \x20      smtrace --version       shows the version\n\n\
        A trace has at most 16,777,216 bytes: in a longer one the line with the next byte is\n\
        malformed. What stands before it can be read:\n\
        \x20      head -c 16777216 TRACE | sed '$d' | smtrace show\n",
    version: SMTRACE,
    no_memory: "smtrace: no memory\n",
};

/// The status of a run with these words.
fn run(rt: HostRuntime, console: &mut StandardConsole, words: &[String]) -> u8 {
    match followed(words) {
        Some(path) => follow(rt, console, path),
        None => smtrace_main(rt.alloc(), words, console),
    }
}

fn main(rt: HostRuntime) -> ExitCode {
    let words = read_words(&rt);
    let mut console = StandardConsole::new(rt);
    let status = match TEXTS.begin(words, &mut console) {
        Ok(words) => run(rt, &mut console, words.as_slice()),
        Err(status) => status,
    };
    ExitCode::from(status)
}
