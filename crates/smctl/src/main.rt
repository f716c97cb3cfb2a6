//! `smctl`, which gives orders to a session manager.
#![tactic(auto)]

use program_frame::{OwnTexts, StandardConsole, conclude, read_words};
use program_texts::SMCTL;
use smctl_app::run;
use std::process::ExitCode;

const TEXTS: OwnTexts = OwnTexts {
    help: "smctl, which gives orders to a session manager\n\n\
        usage: smctl [--control SOCKET] ORDER\n\
        \x20      smctl [--control SOCKET] shutdown --wait    stays until the manager ends\n\
        \x20      smctl [--control SOCKET] clients [--plain]  shows who is there\n\
        \x20      smctl --help            shows this\n\
        \x20      smctl --version         shows the version\n\n\
        orders: checkpoint     saves the state of every program\n\
        \x20       shutdown       ends the session, once all have saved\n\
        \x20       cancel         calls the logout off\n\
        \x20       status         tells how many are there, and what the session is at\n\
        \x20       drop NUMBER    goes on without a client, as: smctl drop 3\n\
        \x20       forget ID      doesn't start a program again that is gone, by its ID\n\n\
        Without --control the socket is the one that SMD_CONTROL names, or else\n\
        smd/control in the folder that XDG_RUNTIME_DIR names.\n",
    version: SMCTL,
    no_memory: "smctl: no memory\n",
};

fn main(rt: HostRuntime) -> ExitCode {
    let words = read_words(&rt);
    let mut console = StandardConsole::new(rt);
    let status = match TEXTS.begin(words, &mut console) {
        Ok(words) => {
            let ending = run(&rt, words.as_slice(), &mut console);
            conclude(rt.alloc(), &mut console, ending)
        }
        Err(status) => status,
    };
    ExitCode::from(status)
}
