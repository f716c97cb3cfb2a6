ghost use Rattle.std.specs.Prelude.{◌≡◌, ◌∷◌, ◌++◌, ◌<◌, [], length, flat_map, IfOk, IfErr};
ghost use Rattle.ice_values.specs.Cells.{zeros};
ghost use Rattle.checkpoint_records.specs.Finding.{IsStop};
ghost use Rattle.checkpoint_records.specs.Parts.{AreSessions, IsHead};
ghost use Rattle.checkpoint_records.specs.Spelling.{count_in, part_cells, session_parts};
ghost use Rattle.checkpoint_records.specs.Stopping.{StopsBehind};
ghost use Rattle.checkpoint_records.specs.declared.head.Format.TheVariants.{Single, Several};

use crate::entries::take_entries;
use crate::head::{Format, Head};
use crate::session_heads::take_next_head;
use crate::session_names::default_name;
use crate::sessions::stored;
use crate::stops::Stop;
use crate::{Named, NamedList, SharedEntries};
use std::alloc::Global;

/// The session that stands behind others, and what follows it.
fn take_session<'a>(
    alloc: Global,
    head: Head,
    before: &[Named],
    bytes: &'a [u8],
) -> Result<(Named, &'a [u8]), Stop>
    requires format { head.format ≡ Several }
    requires before { AreSessions head before.now }
    requires due { length before.now < head.count }
    ensures next { IfOk result (λ x. AreSessions head (before.now ++ x.0 ∷ [])
        × (bytes.now ≡ zeros (flat_map part_cells (session_parts Several x.0)) ++ x.1.now)) }
    ensures stop { IfErr result (λ stop.
        IsStop bytes.now (StopsBehind head (flat_map (session_parts Several) before.now) bytes.now)
        stop) }
{
    let (begun, rest) = match take_next_head(alloc, before, bytes) {
        Ok(taken) => taken,
        Err(stop) => return Err(stop),
    };
    let (entries, rest) = match take_entries(alloc, head.epoch, before, begun.count, rest) {
        Ok(taken) => taken,
        Err(stop) => return Err(stop),
    };
    let entries = SharedEntries::new(alloc, entries)?;
    let session = Named {
        name: begun.name,
        entries,
    };
    Ok((session, rest))
}

/// The sessions of format 2 at the front, and what follows them.
fn take_several<'a>(
    alloc: Global,
    head: Head,
    bytes: &'a [u8],
) -> Result<(NamedList, &'a [u8]), Stop>
    requires { head.format ≡ Several }
    ensures all { IfOk result (λ x. AreSessions head x.0 × (length x.0 ≡ head.count)
        × (bytes.now ≡ zeros (flat_map part_cells (flat_map (session_parts Several) x.0))
        ++ x.1.now)) }
    ensures stop { IfErr result (λ stop. IsStop bytes.now (StopsBehind head [] bytes.now) stop) }
{
    let mut sessions = NamedList::new(alloc);
    let mut rest = bytes;
    for _i in 0..head.count {
        match take_session(alloc, head, sessions.as_slice(), rest) {
            Ok((session, after)) => {
                sessions.push(session)?;
                rest = after;
            }
            Err(stop) => return Err(stop),
        }
    }
    Ok((sessions, rest))
}

/// The one session of format 1 at the front, unless it has no entries, and what follows it.
fn take_single<'a>(
    alloc: Global,
    head: Head,
    bytes: &'a [u8],
) -> Result<(NamedList, &'a [u8]), Stop>
    requires format { head.format ≡ Single }
    requires stated { IsHead head }
    ensures all { IfOk result (λ x. AreSessions head x.0 × (count_in Single x.0 ≡ head.count)
        × (bytes.now ≡ zeros (flat_map part_cells (flat_map (session_parts Single) x.0))
        ++ x.1.now)) }
    ensures stop { IfErr result (λ stop. IsStop bytes.now (StopsBehind head [] bytes.now) stop) }
{
    let none = NamedList::new(alloc);
    let (entries, rest) = match take_entries(
        alloc,
        head.epoch,
        none.as_slice(),
        head.count,
        bytes,
    ) {
        Ok(taken) => taken,
        Err(stop) => return Err(stop),
    };
    let name = default_name(alloc)?;
    let entries = SharedEntries::new(alloc, entries)?;
    let sessions = stored(name, entries, none)?;
    Ok((sessions, rest))
}

/// The sessions behind a head, and what follows them.
pub(crate) fn take_sessions<'a>(
    alloc: Global,
    head: Head,
    bytes: &'a [u8],
) -> Result<(NamedList, &'a [u8]), Stop>
    requires { IsHead head }
    ensures all { IfOk result (λ x. AreSessions head x.0 × (count_in head.format x.0 ≡ head.count)
        × (bytes.now ≡ zeros (flat_map part_cells (flat_map (session_parts head.format) x.0))
        ++ x.1.now)) }
    ensures stop { IfErr result (λ stop. IsStop bytes.now (StopsBehind head [] bytes.now) stop) }
{
    match head.format {
        Format::Single => take_single(alloc, head, bytes),
        Format::Several => take_several(alloc, head, bytes),
    }
}
