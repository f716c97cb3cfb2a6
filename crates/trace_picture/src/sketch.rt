ghost use Rattle.std.specs.List.{AllByRecursion};
ghost use Rattle.trace_replay.specs.Parts.{IsHeaded};

use crate::lanes::{Arrow, Lane, LaneEnd, Moment, Note, Round, Save};
use crate::marks::{SaveStep, arrow_name, is_ping, is_setup, save_step};
use checkpoint_records::Book;
use control_lines::started_line;
use ice_framing::WholeFrame;
use ice_values::Property;
use message_text::Writing;
use owned_lists::{NoMemory, Octets};
use sm_world::{Conn, Event, Order};
use std::alloc::Global;
use std::collections::BTreeMap;
use trace_reading::put_command;
use trace_replay::{Brought, Direction, TraceLine, Watch, frame_text, xsmp_in};
use xsmp_messages::XsmpMessage;
use xsmp_properties::command_of;

/// What a picture shows, as it is found line by line.
#[derive(Drop)]
pub struct Sketch {
    pub lanes: Vec<Lane>,
    pub arrows: Vec<Arrow>,
    pub saves: Vec<Save>,
    pub rounds: Vec<Round>,
    pub notes: Vec<Note>,
    pub moments: Vec<Moment>,
    /// The last row in which something stands.
    pub row: u64,
    /// The row of the last event.
    event: u64,
    /// The first row in which something stands that smd does about it.
    deeds: u64,
    clock: u64,
    places: BTreeMap<Conn, usize>,
    /// The fields of the commands that were started, and no lane began with so far.
    started: Vec<Octets>,
}

/// The fields of the command by which a client is started again, as a trace has them.
fn restart_fields(alloc: Global, book: &Book, id: &[u8]) -> Result<Option<Octets>, NoMemory> {
    for entry in book.entries.as_slice() {
        if entry.id.as_slice() == id {
            let Some(command) = command_of(alloc, &entry.table, b"RestartCommand")? else {
                return Ok(None);
            };
            let line = started_line(alloc, &command, true)?;
            return match line.as_slice().strip_prefix(b"started ") {
                Some(fields) => Ok(Some(Octets::from_slice(alloc, fields)?)),
                None => Ok(None),
            };
        }
    }
    Ok(None)
}

/// The program that a property names.
fn program_of(alloc: Global, property: &Property) -> Result<Option<Octets>, NoMemory> {
    if property.name.as_slice() != b"Program".as_slice() {
        return Ok(None);
    }
    match property.values.as_slice().first() {
        Some(value) => Ok(Some(Octets::from_slice(alloc, value.as_slice())?)),
        None => Ok(None),
    }
}

/// An order as a note.
fn order_note(alloc: Global, order: &Order) -> Result<Octets, NoMemory> {
    match order {
        Order::Checkpoint => Octets::from_slice(alloc, b"order: checkpoint"),
        Order::Shutdown => Octets::from_slice(alloc, b"order: shutdown"),
        Order::Cancel => Octets::from_slice(alloc, b"order: cancel"),
        Order::Status => Octets::from_slice(alloc, b"order: status"),
        Order::DropConn(_) => Octets::from_slice(alloc, b"order: drop"),
        Order::Forget(_) => Octets::from_slice(alloc, b"order: forget"),
    }
}

impl Sketch {
    pub fn new(alloc: Global) -> Sketch {
        Sketch {
            lanes: Vec::new(alloc),
            arrows: Vec::new(alloc),
            saves: Vec::new(alloc),
            rounds: Vec::new(alloc),
            notes: Vec::new(alloc),
            moments: Vec::new(alloc),
            row: 0,
            event: 0,
            deeds: 0,
            clock: 0,
            places: BTreeMap::new(alloc),
            started: Vec::new(alloc),
        }
    }

    /// Begins an event. It has a row once something stands there.
    fn begin_event(&mut self) -> Result<(), NoMemory> {
        self.event = self.row.saturating_add(1);
        self.deeds = self.event;
        let (row, clock) = (self.event, self.clock);
        if let Some(last) = self.moments.last_mut() {
            if last.row == row {
                last.clock = clock;
                return Ok(());
            }
            if last.clock == clock {
                return Ok(());
            }
        } else if clock == 0 {
            return Ok(());
        }
        self.moments.push(Moment { row, clock })?;
        Ok(())
    }

    /// The row of the event, in which something stands now.
    fn event_row(&mut self) -> u64 {
        self.row = self.row.max(self.event);
        self.deeds = self.event.saturating_add(1);
        self.event
    }

    /// The row of a deed behind what its lane has.
    fn deed_row(&mut self, taken: u64) -> u64 {
        let row = self.deeds.max(taken.saturating_add(1));
        self.row = self.row.max(row);
        row
    }

    /// Begins a lane.
    fn join(&mut self, alloc: Global, conn: Conn) -> Result<usize, NoMemory> {
        let row = self.event_row();
        let place = self.lanes.len();
        self.lanes.push(Lane {
            conn,
            program: None,
            begun: Octets::new(alloc),
            from: row,
            to: row,
            end: LaneEnd::Open,
            greeted: false,
            save: None,
        })?;
        self.places.insert(conn, place)?;
        Ok(place)
    }

    /// The lane of a connection.
    fn place_of(&mut self, alloc: Global, conn: Conn) -> Result<usize, NoMemory> {
        match self.places.get(&conn) {
            Some(place) => Ok(*place),
            None => self.join(alloc, conn),
        }
    }

    /// Ends a lane, and the save that is under way there.
    fn end_lane(&mut self, conn: Conn, row: u64, end: LaneEnd) {
        let Some(place) = self.places.get(&conn).copied() else {
            return;
        };
        self.end_save(place, row);
        let Some(lane) = self.lanes.get_mut(place) else {
            return;
        };
        if lane.end == LaneEnd::Open {
            lane.end = end;
            lane.to = lane.to.max(row);
        }
    }

    /// Begins the save of a lane, in the round that this event began, if it did.
    fn begin_save(&mut self, place: usize, row: u64, logout: bool) -> Result<(), NoMemory> {
        let lane = place as u64;
        self.end_save(place, row);
        let save = self.saves.len();
        self.saves.push(Save {
            lane,
            from: row,
            to: u64::MAX,
            logout,
        })?;
        if let Some(own) = self.lanes.get_mut(place) {
            own.save = Some(save);
        }
        let event = self.event;
        if let Some(round) = self.rounds.last_mut() {
            if round.row > event && round.logout == logout {
                round.first = round.first.min(lane);
                round.last = round.last.max(lane);
                return Ok(());
            }
        }
        self.rounds.push(Round {
            row,
            first: lane,
            last: lane,
            logout,
        })?;
        Ok(())
    }

    /// Ends the save of a lane.
    fn end_save(&mut self, place: usize, row: u64) {
        let Some(lane) = self.lanes.get_mut(place) else {
            return;
        };
        let Some(save) = lane.save.take() else {
            return;
        };
        if let Some(save) = self.saves.get_mut(save) {
            save.to = row;
        }
    }

    /// The lane has this program, where the properties say one.
    fn name_lane(
        &mut self,
        alloc: Global,
        place: usize,
        properties: &[Property],
    ) -> Result<(), NoMemory> {
        for property in properties {
            let program = program_of(alloc, property)?;
            if program.is_some() {
                if let Some(lane) = self.lanes.get_mut(place) {
                    lane.program = program;
                }
            }
        }
        Ok(())
    }

    /// The lane began with the command that starts the client of this ID again, where that was started.
    fn claim(
        &mut self,
        alloc: Global,
        place: usize,
        book: Option<&Book>,
        id: &[u8],
    ) -> Result<(), NoMemory> {
        let Some(book) = book else {
            return Ok(());
        };
        let Some(fields) = restart_fields(alloc, book, id)? else {
            return Ok(());
        };
        if !self
            .started
            .iter()
            .any(|started| started.as_slice() == fields.as_slice())
        {
            return Ok(());
        }
        if let Some(lane) = self.lanes.get_mut(place) {
            lane.begun = fields;
        }
        Ok(())
    }

    /// What a message changes at its lane.
    fn take_message(
        &mut self,
        alloc: Global,
        place: usize,
        row: u64,
        book: Option<&Book>,
        message: &XsmpMessage,
    ) -> Result<(), NoMemory> {
        match message {
            XsmpMessage::SetProperties { properties } => {
                self.name_lane(alloc, place, properties.as_slice())?;
            }
            XsmpMessage::RegisterClient { previous } => {
                self.claim(alloc, place, book, previous.as_slice())?;
            }
            _ => {}
        }
        match save_step(message) {
            SaveStep::Begins(logout) => self.begin_save(place, row, logout)?,
            SaveStep::Ends => self.end_save(place, row),
            SaveStep::Nothing => {}
        }
        Ok(())
    }

    /// Whether a message of ICE has an arrow: of the set-up only the first, and pings none.
    fn has_arrow(&mut self, place: usize, line: &[u8]) -> bool {
        if is_ping(line) {
            return false;
        }
        if !is_setup(line) {
            return true;
        }
        let Some(lane) = self.lanes.get_mut(place) else {
            return false;
        };
        let is_first = !lane.greeted;
        lane.greeted = true;
        is_first
    }

    /// Adds an arrow.
    fn push_arrow(
        &mut self,
        place: usize,
        row: u64,
        direction: Direction,
        name: Octets,
        text: Octets,
    ) -> Result<(), NoMemory> {
        if let Some(lane) = self.lanes.get_mut(place) {
            lane.to = lane.to.max(row);
        }
        self.arrows.push(Arrow {
            lane: place as u64,
            row,
            direction,
            name,
            text,
        })?;
        Ok(())
    }

    /// Leaves a row for the name of a round, where this message begins one.
    fn make_room(&mut self, message: Option<&XsmpMessage>) {
        let Some(message) = message else {
            return;
        };
        if !matches!(save_step(message), SaveStep::Begins(_)) {
            return;
        }
        let is_new = match self.rounds.last() {
            Some(round) => round.row <= self.event,
            None => true,
        };
        if is_new {
            self.deeds = self.row.saturating_add(2);
        }
    }

    /// The row in which a message stands.
    fn message_row(&mut self, place: usize, direction: Direction) -> u64 {
        let taken = match self.lanes.get(place) {
            Some(lane) => lane.to,
            None => 0,
        };
        match direction {
            Direction::In => {
                self.event = self.event.max(taken.saturating_add(1));
                self.event_row()
            }
            Direction::Out => self.deed_row(taken),
        }
    }

    /// Takes a frame.
    fn take_frame(
        &mut self,
        alloc: Global,
        book: Option<&Book>,
        place: usize,
        direction: Direction,
        frame: &WholeFrame,
    ) -> Result<(), NoMemory>
        requires { IsHeaded frame.now }
    {
        let line = frame_text(alloc, Writing::Words, frame)?;
        let message = xsmp_in(alloc, frame)?;
        if message.is_none() && !self.has_arrow(place, line.as_slice()) {
            return Ok(());
        }
        self.make_room(message.as_ref());
        let row = self.message_row(place, direction);
        let name = if message.is_none() && is_setup(line.as_slice()) {
            Octets::from_slice(alloc, b"set-up")?
        } else {
            arrow_name(alloc, line.as_slice(), message.as_ref())?
        };
        if let Some(message) = &message {
            self.take_message(alloc, place, row, book, message)?;
        }
        self.push_arrow(place, row, direction, name, line)
    }

    /// Takes frames.
    fn take_frames(
        &mut self,
        alloc: Global,
        book: Option<&Book>,
        place: usize,
        direction: Direction,
        frames: &[WholeFrame],
    ) -> Result<(), NoMemory>
        requires { AllByRecursion IsHeaded frames.now }
    {
        for frame in frames {
            self.take_frame(alloc, book, place, direction, frame)?;
        }
        Ok(())
    }

    /// Takes the parts that were brought.
    fn take_parts(
        &mut self,
        alloc: Global,
        book: Option<&Book>,
        conn: Conn,
        direction: Direction,
        brought: &Brought,
    ) -> Result<(), NoMemory>
        requires { AllByRecursion IsHeaded brought.now.frames }
    {
        let place = self.place_of(alloc, conn)?;
        self.take_frames(alloc, book, place, direction, brought.frames.as_slice())?;
        if brought.ended {
            let row = self.message_row(place, direction);
            let name = Octets::from_slice(alloc, b"Oversize")?;
            let text = Octets::from_slice(alloc, b"Oversize")?;
            self.push_arrow(place, row, direction, name, text)?;
        }
        Ok(())
    }

    /// Adds a note of the manager.
    fn push_note(&mut self, row: u64, text: Octets) -> Result<(), NoMemory> {
        self.notes.push(Note { row, text })?;
        Ok(())
    }

    /// Takes an event.
    fn take_event(
        &mut self,
        alloc: Global,
        book: Option<&Book>,
        event: &Event,
        brought: &Brought,
    ) -> Result<(), NoMemory>
        requires { AllByRecursion IsHeaded brought.now.frames }
    {
        match event {
            Event::Joined(conn) => {
                self.begin_event()?;
                self.join(alloc, *conn)?;
                Ok(())
            }
            Event::Piece(conn, _) => {
                self.begin_event()?;
                self.take_parts(alloc, book, *conn, Direction::In, brought)
            }
            Event::Gone(conn) => {
                self.begin_event()?;
                let row = self.event_row();
                self.end_lane(*conn, row, LaneEnd::Gone);
                Ok(())
            }
            Event::Operator(order) => {
                self.begin_event()?;
                let row = self.event_row();
                let note = order_note(alloc, order)?;
                self.push_note(row, note)
            }
            Event::Tick(milliseconds) => {
                self.clock = self.clock.saturating_add(*milliseconds);
                self.begin_event()
            }
            Event::End => Ok(()),
        }
    }

    /// A deed of the manager that has a note.
    fn note_deed(&mut self, alloc: Global, words: &str, text: &[u8]) -> Result<(), NoMemory> {
        let taken = match self.notes.last() {
            Some(note) => note.row,
            None => 0,
        };
        let row = self.deed_row(taken);
        let mut note = Octets::from_slice(alloc, words.as_bytes())?;
        note.append(text)?;
        self.push_note(row, note)
    }

    /// Takes what a line says.
    pub fn take(
        &mut self,
        alloc: Global,
        watch: &mut Watch,
        book: Option<&Book>,
        said: &TraceLine,
    ) -> Result<(), NoMemory> {
        let brought = watch.take(alloc, said)?;
        match said {
            TraceLine::Heard(event) => self.take_event(alloc, book, event, &brought),
            TraceLine::End => {
                self.begin_event()?;
                let row = self.event_row();
                let note = Octets::from_slice(alloc, b"the end")?;
                self.push_note(row, note)
            }
            TraceLine::Sent(conn, _) => {
                self.take_parts(alloc, book, *conn, Direction::Out, &brought)
            }
            TraceLine::Shut(conn) => {
                let row = self.deed_row(0);
                self.end_lane(*conn, row, LaneEnd::Shut);
                Ok(())
            }
            TraceLine::Started(succeeded, fields) => {
                let words = if *succeeded {
                    "starts "
                } else {
                    "can't start "
                };
                self.started
                    .push(Octets::from_slice(alloc, fields.as_slice())?)?;
                let command = command_words(alloc, fields.as_slice())?;
                self.note_deed(alloc, words, command.as_slice())
            }
            TraceLine::Printed(text) => self.note_deed(alloc, "prints ", text.as_slice()),
        }
    }
}

/// A command by its fields, for people.
pub fn command_words(alloc: Global, fields: &[u8]) -> Result<Octets, NoMemory> {
    let mut words = Octets::new(alloc);
    put_command(alloc, &mut words, fields)?;
    match words.as_slice().strip_prefix(b" ") {
        Some(text) => Octets::from_slice(alloc, text),
        None => Ok(words),
    }
}
