ghost use Rattle.std.specs.Prelude.{◌≡◌, ◌++◌, map, IfOk, OnOk, option_copied};
ghost use Rattle.std.specs.List.{AllByRecursion};
ghost use Rattle.ice_framing.specs.Parts.{Whole};
ghost use Rattle.trace_replay.specs.Parts.{IsHeaded};
ghost use Rattle.trace_replay.specs.declared.lines.TraceLine.{TraceLine as AnyLine};
ghost use Rattle.trace_reading.specs.Lines.{went_told};
ghost use Rattle.trace_reading.specs.Told.{first_scene};
ghost use Rattle.trace_reading.specs.Tellers.{BroughtCame, BroughtWent, GoesOnWith, Stands, TellsCame, TellsLine, ToldCame};

use crate::lines::{
    put_deed, put_ordered, put_oversize, put_part, put_printed, put_started, put_words,
};
use crate::programs::after_frame;
use ice_framing::WholeFrame;
use message_text::Writing;
use owned_lists::{NoMemory, Octets};
use sm_world::{Conn, Event};
use std::alloc::Global;
use std::collections::BTreeMap;
use trace_replay::{Brought, Direction, TraceLine, Watch, frame_text};

/// What is kept of the connections' programs and of the time.
#[derive(Debug, Drop)]
struct Notes {
    /// The programs, as far as they are known.
    programs: BTreeMap<Conn, Octets>,
    /// How many milliseconds went by, as far as they can be counted.
    clock: u64,
}

/// What is kept in the middle of a trace that is told.
#[derive(Debug, Drop)]
pub struct Teller {
    watch: Watch,
    notes: Notes,
}

/// Appends the lines of frames that came on a connection, and says which program is known behind them.
fn put_came_frames(
    alloc: Global,
    out: &mut Octets,
    clock: u64,
    conn: Conn,
    known: Option<Octets>,
    frames: &[WholeFrame],
) -> Result<Option<Octets>, NoMemory>
    requires { AllByRecursion IsHeaded frames.now }
    ensures { IfOk result (λ after.
        ToldCame clock conn known (map Whole frames.now) after out.old out.new) }
{
    let mut program = known;
    for frame in frames {
        let text = frame_text(alloc, Writing::Words, frame)?;
        put_part(
            alloc,
            out,
            clock,
            Direction::In,
            conn,
            program.as_ref(),
            text.as_slice(),
        )?;
        program = after_frame(alloc, frame, program)?;
    }
    Ok(program)
}

/// Appends the lines of parts that came on a connection, and says which program is known behind them.
fn put_came(
    alloc: Global,
    out: &mut Octets,
    clock: u64,
    conn: Conn,
    known: Option<Octets>,
    brought: &Brought,
) -> Result<Option<Octets>, NoMemory>
    requires { AllByRecursion IsHeaded brought.now.frames }
    ensures { IfOk result (λ after.
        BroughtCame clock conn known brought.now after out.old out.new) }
{
    let program = put_came_frames(alloc, out, clock, conn, known, brought.frames.as_slice())?;
    if !brought.ended {
        return Ok(program);
    }
    put_oversize(alloc, out, clock, Direction::In, conn, program.as_ref())?;
    Ok(program)
}

/// Appends the lines of frames that were sent on a connection.
fn put_sent_frames(
    alloc: Global,
    out: &mut Octets,
    clock: u64,
    conn: Conn,
    known: Option<&Octets>,
    frames: &[WholeFrame],
) -> Result<(), NoMemory>
    requires { AllByRecursion IsHeaded frames.now }
    ensures { OnOk result
        (out.new ≡ out.old ++ went_told clock conn (option_copied known.entry)
        (map Whole frames.now)) }
{
    for frame in frames {
        let text = frame_text(alloc, Writing::Words, frame)?;
        put_part(
            alloc,
            out,
            clock,
            Direction::Out,
            conn,
            known,
            text.as_slice(),
        )?;
    }
    Ok(())
}

/// Appends the lines of parts that were sent on a connection.
fn put_sent(
    alloc: Global,
    out: &mut Octets,
    clock: u64,
    conn: Conn,
    known: Option<&Octets>,
    brought: &Brought,
) -> Result<(), NoMemory>
    requires { AllByRecursion IsHeaded brought.now.frames }
    ensures { OnOk result
        (BroughtWent clock conn (option_copied known.entry) brought.now out.old out.new) }
{
    put_sent_frames(alloc, out, clock, conn, known, brought.frames.as_slice())?;
    if !brought.ended {
        return Ok(());
    }
    put_oversize(alloc, out, clock, Direction::Out, conn, known)
}

impl Notes {
    /// Appends the lines of a piece that came.
    fn tell_came(
        &mut self,
        alloc: Global,
        out: &mut Octets,
        conn: Conn,
        brought: &Brought,
    ) -> Result<(), NoMemory>
        requires { AllByRecursion IsHeaded brought.now.frames }
        ensures { OnOk result (TellsCame conn brought.now self.old self.new out.old out.new) }
    {
        let known = self.programs.remove(&conn);
        let known = put_came(alloc, out, self.clock, conn, known, brought)?;
        match known {
            Some(program) => {
                self.programs.insert(conn, program)?;
                Ok(())
            }
            None => Ok(()),
        }
    }

    /// Appends the lines of an event that brought these parts.
    fn tell_event(
        &mut self,
        alloc: Global,
        out: &mut Octets,
        event: &Event,
        brought: &Brought,
    ) -> Result<(), NoMemory>
        requires { AllByRecursion IsHeaded brought.now.frames }
        ensures { OnOk result
            (TellsLine (TraceLine.Heard event.now) brought.now self.old self.new out.old out.new) }
    {
        match event {
            Event::Joined(conn) => {
                self.programs.remove(conn);
                put_deed(alloc, out, self.clock, "", *conn, None, " joins")
            }
            Event::Piece(conn, _) => self.tell_came(alloc, out, *conn, brought),
            Event::Gone(conn) => {
                let known = self.programs.get(conn);
                put_deed(alloc, out, self.clock, "", *conn, known, " is gone")
            }
            Event::Operator(order) => put_ordered(alloc, out, self.clock, order),
            Event::Tick(milliseconds) => {
                self.clock = self.clock.saturating_add(*milliseconds);
                Ok(())
            }
            Event::End => Ok(()),
        }
    }

    /// Appends the lines of what a line says that brought these parts.
    fn tell(
        &mut self,
        alloc: Global,
        out: &mut Octets,
        said: &TraceLine,
        brought: &Brought,
    ) -> Result<(), NoMemory>
        requires { AllByRecursion IsHeaded brought.now.frames }
        ensures { OnOk result (TellsLine said.now brought.now self.old self.new out.old out.new) }
    {
        match said {
            TraceLine::Heard(event) => self.tell_event(alloc, out, event, brought),
            TraceLine::End => put_words(alloc, out, self.clock, "the end"),
            TraceLine::Sent(conn, _) => {
                let known = self.programs.get(conn);
                put_sent(alloc, out, self.clock, *conn, known, brought)
            }
            TraceLine::Shut(conn) => {
                let known = self.programs.get(conn);
                put_deed(alloc, out, self.clock, "smd shuts ", *conn, known, "")
            }
            TraceLine::Started(succeeded, text) => {
                put_started(alloc, out, self.clock, *succeeded, text.as_slice())
            }
            TraceLine::Printed(text) => put_printed(alloc, out, self.clock, text.as_slice()),
        }
    }
}

impl Teller {
    /// Before the first line.
    pub fn new(alloc: Global) -> Teller
        ensures { Stands first_scene result }
    {
        let watch = Watch::new(alloc);
        let programs = BTreeMap::new(alloc);
        Teller {
            watch,
            notes: Notes { programs, clock: 0 },
        }
    }

    /// Appends the lines of what a line says.
    pub fn tell(
        &mut self,
        alloc: Global,
        out: &mut Octets,
        said: &TraceLine,
    ) -> Result<(), NoMemory>
        ensures { OnOk result (GoesOnWith said.now self.old self.new out.old out.new) }
    {
        let brought = self.watch.take(alloc, said)?;
        self.notes.tell(alloc, out, said, &brought)
    }
}
