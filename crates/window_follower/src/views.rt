ghost use Rattle.std.specs.Prelude.{◌≡◌, ◌++◌, find, option_copied, IfOk, OnOk};
ghost use Rattle.window_follower.specs.Windows.{is_listed as listed_in, is_of};
ghost use Rattle.window_follower.specs.Views.{belongs as belongs_in, has_id_by, is_process as is_that_process, kind_in, own_process as process_in, own_process_by, process_by, program_of as program_in, time_by, user_time_in, window_if, windows_of as windows_in};

use crate::{Followed, Kind, WindowFacts, kind_of};
use display_messages::WindowList;
use owned_lists::NoMemory;
use std::alloc::Global;

fn row_of(rows: &[Followed], window: u32) -> Option<&Followed>
    ensures { option_copied result ≡ find (is_of window) rows.now }
{
    rows.iter().find(|row| row.window == window)
}

fn is_listed(rows: &[Followed], window: u32) -> bool
    ensures { result ≡ listed_in window rows.now }
{
    rows.iter().any(|row| row.window == window && row.listed)
}

fn named_process(rows: &[Followed], window: Option<u32>) -> Option<u32>
    ensures { result ≡ process_by window rows.now }
{
    match window {
        Some(window) => match row_of(rows, window) {
            Some(row) => row.facts.process(),
            None => None,
        },
        None => None,
    }
}

fn own_process(rows: &[Followed], facts: &WindowFacts) -> Option<u32>
    ensures { result ≡ process_in rows.now facts.now }
{
    facts.process().or(named_process(rows, facts.leader))
}

fn owner_process(rows: &[Followed], window: Option<u32>) -> Option<u32>
    ensures { result ≡ own_process_by rows.now window }
{
    match window {
        Some(window) => match row_of(rows, window) {
            Some(row) => own_process(rows, &row.facts),
            None => None,
        },
        None => None,
    }
}

fn program_of(rows: &[Followed], facts: &WindowFacts) -> Option<u32>
    ensures { result ≡ program_in rows.now facts.now }
{
    owner_process(rows, facts.transient_for).or(own_process(rows, facts))
}

fn is_process(process: u32, other: Option<u32>) -> bool
    ensures { result ≡ is_that_process process other }
{
    match other {
        Some(other) => other == process,
        None => false,
    }
}

/// Adds a window, where it was in a list and is of a process.
fn put_window(
    rows: &[Followed],
    process: u32,
    row: &Followed,
    windows: &mut WindowList,
) -> Result<(), NoMemory>
    ensures { OnOk result (windows.new ≡ windows.old ++ window_if rows.now process row.now) }
{
    if row.listed && is_process(process, program_of(rows, &row.facts)) {
        windows.push(row.window)?;
    }
    Ok(())
}

/// The windows of a process.
pub(crate) fn windows_of(
    alloc: Global,
    rows: &[Followed],
    process: u32,
) -> Result<WindowList, NoMemory>
    ensures { IfOk result (λ windows. windows ≡ windows_in process rows.now) }
{
    let mut windows = WindowList::new(alloc);
    for row in rows {
        put_window(rows, process, row, &mut windows)?;
    }
    Ok(windows)
}

fn belongs(rows: &[Followed], window: Option<u32>) -> bool
    ensures { result ≡ belongs_in rows.now window }
{
    match window {
        Some(window) => is_listed(rows, window),
        None => false,
    }
}

/// The kind of a window.
pub(crate) fn kind(rows: &[Followed], window: u32) -> Option<Kind>
    ensures { result ≡ kind_in window rows.now }
{
    match row_of(rows, window) {
        Some(row) => Some(kind_of(&row.facts, belongs(rows, row.facts.transient_for))),
        None => None,
    }
}

/// Whether a window, if any, has the ID of a session.
pub(crate) fn has_id(rows: &[Followed], window: Option<u32>) -> bool
    ensures { result ≡ has_id_by rows.now window }
{
    match window {
        Some(window) => match row_of(rows, window) {
            Some(row) => row.facts.client_id.is_some(),
            None => false,
        },
        None => false,
    }
}

fn time_of(rows: &[Followed], facts: &WindowFacts) -> Option<u32>
    ensures { result ≡ time_by rows.now facts.now facts.now.user_time_window }
{
    match facts.user_time_window {
        Some(window) => match row_of(rows, window) {
            Some(row) => row.facts.user_time,
            None => None,
        },
        None => facts.user_time,
    }
}

/// When the user last did something in a window.
pub(crate) fn user_time(rows: &[Followed], window: u32) -> Option<u32>
    ensures { result ≡ user_time_in window rows.now }
{
    match row_of(rows, window) {
        Some(row) => time_of(rows, &row.facts),
        None => None,
    }
}
