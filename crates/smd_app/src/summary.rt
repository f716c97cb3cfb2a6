ghost use Rattle.std.specs.Prelude.{◌≡◌, ◌+◌, IfOk, ℕ, string_bytes};
ghost use Rattle.sm_world.specs.declared.effects.Effect.TheVariants.{Wrote};
ghost use Rattle.checkpoint_slots.specs.Turns.{opened_by, opened_in};
ghost use Rattle.session_engine.specs.Doing.{item_of, items};
ghost use Rattle.smd_app.specs.Summaries.{came_in, sent_in, summary};

use owned_lists::NoMemory;
use sm_world::Effect;
use std::alloc::Global;

/// What opens the gate of a slot.
const OPEN_GATE: [u8; 1] = [0xa5];

/// What is counted of a run.
#[derive(Clone, Copy, Debug, PartialEq, Eq)]
struct Tally {
    events: u64,
    bytes: u64,
    commits: u64,
}

/// More than a `u64` counts isn't in memory.
fn plus(count: u64, more: usize) -> Result<u64, NoMemory>
    ensures { IfOk result (λ sum. sum ≡ count + more) }
{
    match count.checked_add(more as u64) {
        Some(sum) => Ok(sum),
        None => Err(NoMemory),
    }
}

/// Whether these bytes open a gate.
fn opens_gate(bytes: &[u8]) -> usize
    ensures { (at : ℕ) → result ≡ opened_by (Wrote at bytes.now) }
{
    if bytes == OPEN_GATE.as_slice() { 1 } else { 0 }
}

impl Tally {
    /// Counts one effect more.
    fn with(self, effect: &Effect) -> Result<Tally, NoMemory>
        ensures events { IfOk result (λ tally. tally.events
            ≡ self.events + came_in (item_of effect.now)) }
        ensures bytes { IfOk result (λ tally. tally.bytes
            ≡ self.bytes + sent_in (item_of effect.now)) }
        ensures commits { IfOk result (λ tally. tally.commits
            ≡ self.commits + opened_by effect.now) }
    {
        let Tally {
            events,
            bytes,
            commits,
        } = self;
        match effect {
            Effect::Heard(_) => Ok(Tally {
                events: plus(events, 1)?,
                bytes,
                commits,
            }),
            Effect::Sent(_, sent) => Ok(Tally {
                events,
                bytes: plus(bytes, sent.len())?,
                commits,
            }),
            Effect::Wrote(_, written) => Ok(Tally {
                events,
                bytes,
                commits: plus(commits, opens_gate(written.as_slice()))?,
            }),
            Effect::Shut(_) => Ok(self),
            Effect::Started(_, _) => Ok(self),
            Effect::Torn(_, _) => Ok(self),
            Effect::Synced => Ok(self),
            Effect::SyncFailed => Ok(self),
            Effect::Published(_, _) => Ok(self),
            Effect::Printed(_) => Ok(self),
        }
    }
}

/// What is counted of these effects.
fn tally_of(effects: &[Effect]) -> Result<Tally, NoMemory>
    ensures events { IfOk result (λ tally. tally.events ≡ came_in (items effects.now)) }
    ensures bytes { IfOk result (λ tally. tally.bytes ≡ sent_in (items effects.now)) }
    ensures commits { IfOk result (λ tally. tally.commits ≡ opened_in effects.now) }
{
    let mut tally = Tally {
        events: 0,
        bytes: 0,
        commits: 0,
    };
    for effect in effects {
        let next = tally.with(effect)?;
        tally = next;
    }
    Ok(tally)
}

fn line_of(alloc: Global, events: u64, bytes: u64, commits: u64) -> Result<String, NoMemory>
    ensures { IfOk result (λ text. string_bytes text ≡ summary events bytes commits) }
{
    Ok(format!(in alloc; "exercise: {events} events, {bytes} bytes sent, {commits} commits\n")?)
}

/// The line that sums up a run with these effects.
pub fn summary_line(alloc: Global, effects: &[Effect]) -> Result<String, NoMemory>
    ensures { IfOk result (λ text. string_bytes text
        ≡ summary (came_in (items effects.now)) (sent_in (items effects.now))
        (opened_in effects.now)) }
{
    let tally = tally_of(effects)?;
    line_of(alloc, tally.events, tally.bytes, tally.commits)
}
