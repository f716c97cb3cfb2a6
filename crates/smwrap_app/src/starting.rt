ghost use Rattle.std.specs.Prelude.{◌≡◌, ◌≢◌, [], map, string_bytes, false, IfErr, IfOk, Ok};
ghost use Rattle.sm_world.specs.Disk.{UsesDisk};
ghost use Rattle.sm_world.specs.Outside.{Added, NotFallen, UsesSpawner, adds, of_ok};
ghost use Rattle.sm_world.specs.declared.effects.Effect.TheVariants.{Started};
ghost use Rattle.smwrap_app.specs.Starting.{IsFileFault, MayBegin, MayPutBack};
ghost use Rattle.smwrap_app.specs.Statuses.{LetsIn, StopsEarly, command_by, plan_by, words_before};
ghost use Rattle.smwrap_app.specs.Words.{chosen_of};

use crate::fault::{Fault, file_fault};
use crate::words::Choices;
use ice_cookie::Cookie;
use owned_lists::{Command, Duplicate, NoMemory, Octets, OctetsList, PairList};
use sm_world::Spawner;
use smclient_app::{EntryRefusal, read_cookie};
use state_saver::{Files, Path, SavePlan, copy_path};
use std::alloc::Global;

/// Copies of some words.
fn word_list(alloc: Global, words: &[String]) -> Result<OctetsList, NoMemory>
    ensures { IfOk result (λ list. list ≡ map string_bytes words.now) }
{
    let mut list = OctetsList::new(alloc);
    for word in words {
        list.push(Octets::from_slice(alloc, word.as_bytes())?)?;
    }
    Ok(list)
}

/// Copies of some texts.
fn text_list(alloc: Global, texts: &[&str]) -> Result<OctetsList, NoMemory>
    ensures { IfOk result (λ list. list ≡ map (λ text. text.now) texts.now) }
{
    let mut list = OctetsList::new(alloc);
    for text in texts {
        list.push(Octets::from_slice(alloc, text.as_bytes())?)?;
    }
    Ok(list)
}

/// The first words of the command that wraps a program again, up to the path of its state.
fn first_words(alloc: Global, choices: &Choices<'_>) -> Result<OctetsList, NoMemory>
    ensures { IfOk result (λ words. words ≡ words_before (chosen_of choices.now)) }
{
    let words = [
        "smwrap",
        "--socket",
        choices.socket,
        "--authority",
        choices.authority,
        "--state",
        choices.state,
    ];
    text_list(alloc, &words)
}

/// What is saved, and how the program is started again.
pub fn plan_of(alloc: Global, choices: &Choices<'_>) -> Result<SavePlan, NoMemory>
    ensures { IfOk result (λ plan. plan ≡ plan_by (chosen_of choices.now)) }
{
    Ok(SavePlan {
        state: Path::from_str(alloc, choices.state)?,
        from: choices.from,
        program: word_list(alloc, choices.program)?,
        before: first_words(alloc, choices)?,
    })
}

/// Fetches the authority file and finds the client's cookie in it.
fn fetch_cookie<F: Files>(
    alloc: Global,
    files: &mut F,
    choices: &Choices<'_>,
) -> Result<Cookie, Fault>
    ensures found { IfOk result (LetsIn (chosen_of choices.now) (F.outside files.old)) }
    ensures none { IfErr result
        (λ fault. StopsEarly (chosen_of choices.now)
        (F.outside files.old) (F.outside files.new) fault []) }
    ensures told { (F.outside files.new).told ≡ (F.outside files.old).told }
    ensures uses { UsesDisk (F.outside files.old) (F.outside files.new) false }
{
    let file = match files.fetch(choices.authority) {
        Ok(file) => file,
        Err(failure) => return Err(file_fault(failure)),
    };
    match read_cookie(alloc, file.as_slice(), choices.socket) {
        Ok(cookie) => Ok(cookie),
        Err(EntryRefusal::NoEntry) => Err(Fault::NoEntry),
        Err(EntryRefusal::NoMemory) => Err(Fault::NoMemory),
    }
}

/// Puts the copy with which the program begins in place of its state.
fn put_copy<F: Files>(alloc: Global, files: &mut F, plan: &SavePlan) -> Result<(), Fault>
    requires { plan.now.from ≢ 0 }
    ensures puts { Added (F.outside files.old).told (F.outside files.new).told
        (MayPutBack plan.now (F.outside files.old) result) }
    ensures cause { IfErr result (IsFileFault (F.outside files.old) (F.outside files.new)) }
    ensures uses { UsesDisk (F.outside files.old) (F.outside files.new) false }
{
    let path = match copy_path(alloc, plan, plan.from) {
        Ok(path) => path,
        Err(NoMemory) => return Err(Fault::NoMemory),
    };
    let bytes = match files.fetch(path.as_str()) {
        Ok(bytes) => bytes,
        Err(failure) => return Err(file_fault(failure)),
    };
    match files.publish(plan.state.as_str(), bytes.as_slice()) {
        Ok(()) => Ok(()),
        Err(failure) => Err(file_fault(failure)),
    }
}

/// Puts the copy with which the program begins in place of its state, where there is one.
fn put_back<F: Files>(alloc: Global, files: &mut F, plan: &SavePlan) -> Result<(), Fault>
    ensures puts { Added (F.outside files.old).told (F.outside files.new).told
        (MayPutBack plan.now (F.outside files.old) result) }
    ensures cause { IfErr result (IsFileFault (F.outside files.old) (F.outside files.new)) }
    ensures uses { UsesDisk (F.outside files.old) (F.outside files.new) false }
{
    if plan.from == 0 {
        Ok(())
    } else {
        put_copy(alloc, files, plan)
    }
}

/// Starts the program, and says whether that succeeded.
fn start<F: Spawner>(alloc: Global, files: &mut F, plan: &SavePlan) -> Result<bool, NoMemory>
    ensures told { (F.outside files.new).told ≡ adds (F.outside files.old).told
        (of_ok (Started (command_by plan.now.program)) result) }
    ensures uses { UsesSpawner (F.outside files.old) (F.outside files.new) result }
{
    let command = Command {
        words: plan.program.copy()?,
        directory: Octets::new(alloc),
        environment: PairList::new(alloc),
    };
    files.start(&command)
}

/// Finds the client's cookie, puts the state back and starts the program. A start that fails has no
/// further effect.
pub fn begin<F: Files + Spawner>(
    alloc: Global,
    files: &mut F,
    choices: &Choices<'_>,
    plan: &SavePlan,
) -> Result<Cookie, Fault>
    requires { plan.now ≡ plan_by (chosen_of choices.now) }
    ensures begins { Added (F.outside files.old).told (F.outside files.new).told
        (MayBegin (chosen_of choices.now) (F.outside files.old) (F.outside files.new) result) }
    ensures counts { NotFallen (F.outside files.old).faults (F.outside files.new).faults }
{
    let cookie = match fetch_cookie(alloc, files, choices) {
        Ok(cookie) => cookie,
        Err(fault) => return Err(fault),
    };
    match put_back(alloc, files, plan) {
        Ok(()) => {}
        Err(fault) => return Err(fault),
    }
    match start(alloc, files, plan) {
        Ok(_) => Ok(cookie),
        Err(NoMemory) => Err(Fault::NoMemory),
    }
}
