ghost use Rattle.std.specs.Prelude.{◌≡◌, ◌↔◌, ◌≤◌, ◌+◌, ◌∷◌, ◌++◌, [], ℕ, List, length, IsTrue, IfOk, IfErr};
ghost use Rattle.std.specs.List.{list_all};
ghost use Rattle.std.specs.Option.{option_map};
ghost use Rattle.ice_values.specs.Cells.{zeros};
ghost use Rattle.checkpoint_records.specs.Books.{entries_in, is_before as comes_before, names_of};
ghost use Rattle.checkpoint_records.specs.Finding.{Finds, IsStop};
ghost use Rattle.checkpoint_records.specs.Parts.{IsSessionHead, MayBegin};
ghost use Rattle.checkpoint_records.specs.Rules.{AreRising};
ghost use Rattle.checkpoint_records.specs.Spelling.{session_head_cells};
ghost use Rattle.checkpoint_records.specs.declared.session_heads.SessionHead.{SessionHead as AnyHead};

use crate::Named;
use crate::head::{ENTRY_LIMIT, take_number};
use crate::pending::take_text;
use crate::session_names::{is_before, is_name};
use crate::stops::Stop;
use owned_lists::{NoMemory, Octets};
use std::alloc::Global;

/// What stands in front of the entries of a session.
#[derive(Drop)]
pub(crate) struct SessionHead {
    pub name: Octets,
    /// How many entries follow.
    pub count: u32,
}

/// Whether a session may have so many entries.
fn is_count(count: u32) -> bool
    ensures { IsTrue result ↔ (1 ≤ count) × (count ≤ 128) }
{
    1 <= count && count <= ENTRY_LIMIT
}

/// The head of a session at the front of the bytes, and what follows it. None where there is none,
/// or one that breaks a rule by itself.
fn take_session_head(alloc: Global, bytes: &[u8]) -> Result<Option<(SessionHead, &[u8])>, NoMemory>
    ensures { IfOk result (λ found.
        Finds (λ head. zeros (session_head_cells head)) IsSessionHead bytes.now
        (option_map (λ x. (x.0, x.1.now)) found)) }
{
    let (name, rest) = match take_text(alloc, bytes)? {
        Some(found) => found,
        None => return Ok(None),
    };
    let (count, rest) = match take_number(rest) {
        Some(found) => found,
        None => return Ok(None),
    };
    let (unused, rest) = match take_number(rest) {
        Some(found) => found,
        None => return Ok(None),
    };
    if unused != 0 {
        return Ok(None);
    }
    if !is_name(name.as_slice()) {
        return Ok(None);
    }
    if !is_count(count) {
        return Ok(None);
    }
    Ok(Some((SessionHead { name, count }, rest)))
}

/// How many entries sessions have together.
fn count_entries(sessions: &[Named]) -> u32
    requires { length (entries_in sessions.now) ≤ 128 }
    ensures { result ≡ length (entries_in sessions.now) }
{
    let mut count = 0_u32;
    for session in sessions {
        count += session.entries.as_slice().len() as u32;
    }
    count
}

/// Whether all these sessions come before a name.
fn come_before(sessions: &[Named], name: &[u8]) -> bool
    ensures { result ≡ list_all (λ session. comes_before session.name name.now) sessions.now }
{
    sessions
        .iter()
        .all(|session| is_before(session.name.as_slice(), name))
}

/// Whether a name comes behind these sessions, whose names rise.
fn is_behind(sessions: &[Named], name: &[u8]) -> bool
    requires { AreRising (names_of sessions.now) }
    ensures { IsTrue result ↔ AreRising (names_of sessions.now ++ name.now ∷ []) }
{
    come_before(sessions, name)
}

/// Whether a session with this head may stand behind these.
fn may_begin(before: &[Named], head: &SessionHead) -> bool
    requires rising { AreRising (names_of before.now) }
    requires few { length (entries_in before.now) ≤ 128 }
    requires fits { IsSessionHead head.now }
    ensures { IsTrue result ↔ MayBegin before.now head.now }
{
    is_behind(before, head.name.as_slice()) && count_entries(before) + head.count <= ENTRY_LIMIT
}

/// The head of a session that stands behind others, and what follows it.
pub(crate) fn take_next_head<'a>(
    alloc: Global,
    before: &[Named],
    bytes: &'a [u8],
) -> Result<(SessionHead, &'a [u8]), Stop>
    requires rising { AreRising (names_of before.now) }
    requires few { length (entries_in before.now) ≤ 128 }
    ensures next { IfOk result (λ x. IsSessionHead x.0 × MayBegin before.now x.0
        × (bytes.now ≡ zeros (session_head_cells x.0) ++ x.1.now)) }
    ensures stop { IfErr result (λ stop.
        IsStop bytes.now (λ left. (left ≡ length bytes.now)
        × ((head : AnyHead) (after : List ℕ) → bytes.now
        ≡ zeros (session_head_cells head) ++ after → IsSessionHead head →
        ¬ (MayBegin before.now head))) stop) }
{
    let left = bytes.len();
    match take_session_head(alloc, bytes)? {
        Some((head, rest)) => {
            if !may_begin(before, &head) {
                return Err(Stop::Broken { left });
            }
            Ok((head, rest))
        }
        None => Err(Stop::Broken { left }),
    }
}
