ghost use Rattle.std.specs.Prelude.{◌≡◌, ◌≤◌, length, IfOk};
ghost use Rattle.ice_values.specs.Reading.{Finds};
ghost use Rattle.display_messages.specs.Setups.{behind_many, behind_depth, behind_screen, root_in, root_of, screens_in, accepted, refused, setup_answer};

use crate::SetupAnswer;
use crate::places::{read_long, read_short};
use ice_values::{pad, pass_bytes};
use owned_lists::{NoMemory, Octets};
use std::alloc::Global;

fn pass_depth(bytes: &[u8]) -> Option<&[u8]>
    ensures { Finds (λ x. x.now) result (behind_depth bytes.now) }
{
    if bytes.len() < 8 {
        return None;
    }
    pass_bytes(8 + 24 * read_short(bytes, 2) as usize, bytes)
}

fn pass_depths(count: u8, bytes: &[u8]) -> Option<&[u8]>
    ensures { Finds (λ x. x.now) result (behind_many behind_depth count bytes.now) }
{
    let mut rest = bytes;
    for _passed in 0..count {
        rest = pass_depth(rest)?;
    }
    Some(rest)
}

fn pass_screen(bytes: &[u8]) -> Option<&[u8]>
    ensures { Finds (λ x. x.now) result (behind_screen bytes.now) }
{
    if bytes.len() < 40 {
        return None;
    }
    let (_, depths) = bytes.split_at(40);
    pass_depths(bytes[39], depths)
}

fn pass_screens(count: u32, bytes: &[u8]) -> Option<&[u8]>
    ensures { Finds (λ x. x.now) result (behind_many behind_screen count bytes.now) }
{
    let mut rest = bytes;
    for _passed in 0..count {
        rest = pass_screen(rest)?;
    }
    Some(rest)
}

fn read_root(bytes: &[u8]) -> Option<u32>
    ensures { result ≡ root_in bytes.now }
{
    if bytes.len() < 4 {
        return None;
    }
    Some(read_long(bytes, 0))
}

fn find_screens(bytes: &[u8]) -> Option<&[u8]>
    requires { 40 ≤ length bytes.now }
    ensures { Finds (λ x. x.now) result (screens_in bytes.now) }
{
    let vendor = read_short(bytes, 24) as usize;
    pass_bytes(
        40 + (vendor + pad(vendor, 4)) + 8 * bytes[29] as usize,
        bytes,
    )
}

#[tactic(auto, unfolding(crate::specs::Setups::root_of))]
fn find_root(screen: u32, bytes: &[u8]) -> Option<u32>
    requires { 40 ≤ length bytes.now }
    ensures { result ≡ root_of screen bytes.now }
{
    let screens = find_screens(bytes)?;
    let rest = pass_screens(screen, screens)?;
    read_root(rest)
}

/// The root of a screen, where it is among those that the answer has.
fn read_accepted(screen: u32, bytes: &[u8]) -> Option<u32>
    ensures { result ≡ accepted screen bytes.now }
{
    if bytes.len() < 40 {
        return None;
    }
    if screen < bytes[28] as u32 {
        find_root(screen, bytes)
    } else {
        None
    }
}

fn read_refused(alloc: Global, bytes: &[u8]) -> Result<SetupAnswer, NoMemory>
    requires { 8 ≤ length bytes.now }
    ensures { IfOk result (λ answer. answer ≡ refused bytes.now) }
{
    let count = bytes[1] as usize;
    let (_, rest) = bytes.split_at(8);
    if rest.len() < count {
        return Ok(SetupAnswer::NotUnderstood);
    }
    let (reason, _) = rest.split_at(count);
    Ok(SetupAnswer::Refused {
        reason: Octets::from_slice(alloc, reason)?,
    })
}

/// What a display answers to a set-up, where the screen of this number is meant; any bytes are read.
pub fn read_setup_answer(alloc: Global, screen: u32, bytes: &[u8]) -> Result<SetupAnswer, NoMemory>
    ensures { IfOk result (λ answer. answer ≡ setup_answer screen bytes.now) }
{
    if bytes.len() < 8 {
        return Ok(SetupAnswer::NotUnderstood);
    }
    match bytes[0] {
        0 => read_refused(alloc, bytes),
        1 => match read_accepted(screen, bytes) {
            Some(root) => Ok(SetupAnswer::Accepted { root }),
            None => Ok(SetupAnswer::NoScreen),
        },
        2 => Ok(SetupAnswer::MoreWanted),
        _ => Ok(SetupAnswer::NotUnderstood),
    }
}
