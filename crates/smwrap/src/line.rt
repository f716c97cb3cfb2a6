use owned_lists::NoMemory;
use smwrap_app::{Choices, read_choices};
use std::alloc::Global;
use std::io::ErrorKind;
use std::{env, io};
use wrapped_files::WrappedFiles;

fn no_memory(_error: NoMemory) -> io::Error {
    io::Error::from(ErrorKind::OutOfMemory)
}

/// The path from the root.
fn whole_path(rt: HostRuntime, path: &str) -> io::Result<String> {
    if path.starts_with('/') {
        return Ok(path.to_string(rt.alloc())?);
    }
    let folder = env::current_dir(&rt)?;
    Ok(format!(in rt.alloc(); "{}/{path}", folder.as_path().as_str())?)
}

/// Adds some words.
fn add(alloc: Global, words: &mut Vec<String>, more: &[&str]) -> Result<(), NoMemory> {
    for word in more {
        words.push(word.to_string(alloc)?)?;
    }
    Ok(())
}

/// The words that ask for the same, with the state at this path and with this number.
fn words_with(
    alloc: Global,
    choices: &Choices<'_>,
    state: &str,
    from: u32,
) -> Result<Vec<String>, NoMemory> {
    let number = from.to_string(alloc)?;
    let mut words = Vec::new(alloc);
    add(
        alloc,
        &mut words,
        &["--socket", choices.socket, "--authority", choices.authority],
    )?;
    add(
        alloc,
        &mut words,
        &["--state", state, "--from", number.as_str()],
    )?;
    if !choices.id.is_empty() {
        add(alloc, &mut words, &["--id", choices.id])?;
    }
    words.push("--".to_string(alloc)?)?;
    for word in choices.program {
        words.push(word.as_str().to_string(alloc)?)?;
    }
    Ok(words)
}

/// The words with the whole path of the state, and with a number behind which no other copies lie. Words that ask for nothing
/// have none.
pub fn prepared(
    rt: HostRuntime,
    words: &[String],
    files: &mut WrappedFiles,
) -> io::Result<Option<Vec<String>>> {
    let alloc = rt.alloc();
    let Some(choices) = read_choices(alloc, words).map_err(no_memory)? else {
        return Ok(None);
    };
    let state = whole_path(rt, choices.state)?;
    let from = files.begin(state.as_str(), choices.from);
    let words = words_with(alloc, &choices, state.as_str(), from).map_err(no_memory)?;
    Ok(Some(words))
}
