ghost use Rattle.std.specs.Prelude.{◌≡◌, [], take, true, false, Some, None, IfOk, OnOk, option_copied, option_and_then, option_map, unwrap_or};
ghost use Rattle.std.specs.List.{list_any};
ghost use Rattle.std.specs.Option.{option_or};
ghost use Rattle.ice_values.specs.Walks.{Views, walk_left};
ghost use Rattle.ice_values.specs.declared.property.Property.{Property as AnyProperty};
ghost use Rattle.xsmp_messages.specs.declared.message.XsmpMessage.TheVariants.{SaveComplete, SaveYourselfDone, SetProperties};
ghost use Rattle.frame_speech.specs.Settings.{values_left};
ghost use Rattle.frame_speech.specs.Words.{without_nul};
ghost use Rattle.session_watch.specs.Knowing.{latest, name_in, is_program, set_by, program_in, id_in, asks as asked_in, answers as answered_in, told_in, work_in, worked_in, logout_in, known_by, noted};
ghost use Rattle.session_watch.specs.declared.party.Party.TheVariants.{Client, Manager};

use crate::asking::{Answered, Asked, answers, asks};
use crate::party::Party;
use crate::stage::{Stage, work, worked};
use frame_speech::{ValueWalk, without_nul};
use ice_values::{Array8, Endian, Property, PropertyView, PropertyWalk};
use owned_lists::{NoMemory, Octets};
use std::alloc::Global;
use xsmp_messages::XsmpMessage;

/// How many bytes of a program's name are kept.
const PROGRAM_LIMIT: usize = 255;

/// How many bytes of an ID are kept.
const ID_LIMIT: usize = 512;

/// What is known of a client by the messages that passed.
#[derive(Debug, Drop)]
pub struct Known {
    pub program: Option<Octets>,
    pub id: Option<Octets>,
    /// What it was asked last.
    pub asked: Option<Asked>,
    /// What it has answered since.
    pub answered: Option<Answered>,
    /// Whether a logout runs for it.
    pub logout: Option<bool>,
    pub work: Option<Stage>,
}

/// The first bytes, of which there are no more than so many.
fn shortened(alloc: Global, bytes: &[u8], limit: usize) -> Result<Octets, NoMemory>
    ensures { IfOk result (λ front. front ≡ take limit bytes.now) }
{
    let (front, _) = bytes.split_at(limit.min(bytes.len()));
    Octets::from_slice(alloc, front)
}

fn is_program(name: &[u8]) -> bool
    ensures { result ≡ is_program name.now }
{
    name == b"Program".as_slice()
}

/// What is kept of a program's name: its first bytes, without the NUL that programs on Xt end it with.
fn shown_name(alloc: Global, value: &[u8]) -> Result<Octets, NoMemory>
    ensures { IfOk result (λ name. name ≡ take 255 (without_nul value.now)) }
{
    shortened(alloc, without_nul(value), PROGRAM_LIMIT)
}

/// The name of a program that these values are.
fn name_in(alloc: Global, values: &[Array8]) -> Result<Option<Octets>, NoMemory>
    ensures { IfOk result (λ name. name ≡ name_in values.now) }
{
    match values.first() {
        Some(value) => Ok(Some(shown_name(alloc, value.as_slice())?)),
        None => Ok(None),
    }
}

/// The program behind a property that is set.
fn program_with(
    alloc: Global,
    property: &Property,
    before: Option<Octets>,
) -> Result<Option<Octets>, NoMemory>
    ensures { IfOk result (λ program. program ≡ unwrap_or (set_by property.now) before) }
{
    if is_program(property.name.as_slice()) {
        name_in(alloc, property.values.as_slice())
    } else {
        Ok(before)
    }
}

/// The program behind properties that are set.
fn program_set(
    alloc: Global,
    properties: &[Property],
    before: Option<Octets>,
) -> Result<Option<Octets>, NoMemory>
    ensures { IfOk result (λ program. program ≡ unwrap_or (latest set_by properties.now) before) }
{
    let mut program = before;
    for property in properties {
        program = program_with(alloc, property, program)?;
    }
    Ok(program)
}

/// The name of a program that these values are, where they lie.
fn name_shown(alloc: Global, walk: ValueWalk<'_>) -> Result<Option<Octets>, NoMemory>
    ensures { IfOk result (λ name. name ≡ name_in (values_left walk.entry)) }
{
    let mut left = walk;
    match left.next() {
        Some(value) => Ok(Some(shown_name(alloc, value)?)),
        None => Ok(None),
    }
}

/// The program behind a property that is set, where it lies.
fn program_shown(
    alloc: Global,
    endian: Endian,
    view: &PropertyView<'_>,
    before: Option<Octets>,
) -> Result<Option<Octets>, NoMemory>
    ensures { IfOk result (λ program. (p : AnyProperty) → Views endian view.now p →
        program ≡ unwrap_or (set_by p) before) }
{
    if is_program(view.name) {
        name_shown(alloc, ValueWalk::of(endian, view))
    } else {
        Ok(before)
    }
}

/// The program behind properties that are set, where they lie.
fn program_walked(
    alloc: Global,
    walk: PropertyWalk<'_>,
    before: Option<Octets>,
) -> Result<Option<Octets>, NoMemory>
    ensures { IfOk result (λ program.
        program ≡ unwrap_or (latest set_by (walk_left walk.entry)) before) }
{
    let endian = walk.endian();
    let mut program = before;
    let mut left = walk;
    while let Some(view) = left.next() {
        program = program_shown(alloc, endian, &view, program)?;
    }
    Ok(program)
}

fn have_program(names: &[Array8]) -> bool
    ensures { result ≡ list_any is_program names.now }
{
    names.iter().any(|name| is_program(name.as_slice()))
}

/// Notes which program a client is behind a message of its.
fn hear_program(
    alloc: Global,
    message: &XsmpMessage,
    program: &mut Option<Octets>,
) -> Result<(), NoMemory>
    ensures { OnOk result (program.new ≡ unwrap_or (program_in message.now) program.old) }
{
    match message {
        XsmpMessage::SetProperties { properties } => {
            *program = program_set(alloc, properties.as_slice(), program.take())?;
            Ok(())
        }
        XsmpMessage::DeleteProperties { names } => {
            if have_program(names.as_slice()) {
                *program = None;
            }
            Ok(())
        }
        _ => Ok(()),
    }
}

/// Notes which ID a client has behind a message of the manager's.
fn tell_id(alloc: Global, message: &XsmpMessage, id: &mut Option<Octets>) -> Result<(), NoMemory>
    ensures { OnOk result (id.new ≡ option_or (id_in message.now) id.old) }
{
    match message {
        XsmpMessage::RegisterClientReply { id: given } => {
            *id = Some(shortened(alloc, given.as_slice(), ID_LIMIT)?);
            Ok(())
        }
        _ => Ok(()),
    }
}

fn logout_in(asked: Asked) -> Option<bool>
    ensures { result ≡ logout_in asked }
{
    match asked {
        Asked::Save { shutdown, .. } => Some(shutdown),
        Asked::Interaction => None,
        Asked::PhaseTwo => None,
        Asked::Complete => Some(false),
        Asked::Cancelled => Some(false),
        Asked::Death => Some(true),
    }
}

/// What a client does that answers so, if it does.
fn heard(answer: Option<Answered>) -> Option<Stage>
    ensures { result ≡ option_and_then worked_in answer }
{
    match answer {
        Some(answered) => worked(answered),
        None => None,
    }
}

/// What SaveYourselfDone answers.
fn saved(success: bool) -> Answered
    ensures { answered_in (SaveYourselfDone success) ≡ Some result }
{
    if success {
        Answered::Saved
    } else {
        Answered::Failed
    }
}

/// What a client has to do behind a message of the manager's.
fn told(message: &XsmpMessage) -> Option<Stage>
    ensures { result ≡ told_in message.now }
{
    match message {
        XsmpMessage::RegisterClientReply { .. } => Some(Stage::Idle),
        _ => asks(message).and_then(|asked| work(asked)),
    }
}

/// What it has answered, once it was asked this.
fn answered_since(asked: Option<Asked>, before: Option<Answered>) -> Option<Answered>
    ensures { result ≡ unwrap_or (option_map (λ _. None) asked) before }
{
    match asked {
        Some(_) => None,
        None => before,
    }
}

impl Known {
    /// Nothing passed yet.
    pub fn nothing() -> Known
        ensures { result ≡ known_by [] }
    {
        Known {
            program: None,
            id: None,
            asked: None,
            answered: None,
            logout: None,
            work: None,
        }
    }

    /// Notes a message of the client's.
    fn hear(&mut self, alloc: Global, message: &XsmpMessage) -> Result<(), NoMemory>
        ensures { OnOk result (self.new ≡ noted Client message.now self.old) }
    {
        let answer = answers(message);
        hear_program(alloc, message, &mut self.program)?;
        self.answered = answer.or(self.answered);
        self.work = heard(answer).or(self.work);
        Ok(())
    }

    /// Notes a message of the manager's.
    fn tell(&mut self, alloc: Global, message: &XsmpMessage) -> Result<(), NoMemory>
        ensures { OnOk result (self.new ≡ noted Manager message.now self.old) }
    {
        let asked = asks(message);
        tell_id(alloc, message, &mut self.id)?;
        self.asked = asked.or(self.asked);
        self.answered = answered_since(asked, self.answered);
        self.logout = asked.and_then(|asked| logout_in(asked)).or(self.logout);
        self.work = told(message).or(self.work);
        Ok(())
    }

    /// Notes SaveYourselfDone of the client's.
    pub fn note_saved(&mut self, success: bool)
        ensures { self.new ≡ noted Client (SaveYourselfDone success) self.old }
    {
        let answered = saved(success);
        self.answered = Some(answered);
        self.work = worked(answered).or(self.work);
    }

    /// Notes SaveComplete of the manager's.
    pub fn note_completed(&mut self)
        ensures { self.new ≡ noted Manager SaveComplete self.old }
    {
        self.asked = Some(Asked::Complete);
        self.answered = None;
        self.logout = Some(false);
    }

    /// Notes that a party sets these properties, which are read where they lie.
    pub fn note_set(
        &mut self,
        alloc: Global,
        party: Party,
        walk: PropertyWalk<'_>,
    ) -> Result<(), NoMemory>
        ensures { OnOk result
            (self.new ≡ noted party (SetProperties (walk_left walk.entry)) self.old) }
    {
        match party {
            Party::Client => {
                self.program = program_walked(alloc, walk, self.program.take())?;
                Ok(())
            }
            Party::Manager => Ok(()),
        }
    }

    /// Notes a message.
    pub fn note(
        &mut self,
        alloc: Global,
        party: Party,
        message: &XsmpMessage,
    ) -> Result<(), NoMemory>
        ensures { OnOk result (self.new ≡ noted party message.now self.old) }
    {
        match party {
            Party::Client => self.hear(alloc, message),
            Party::Manager => self.tell(alloc, message),
        }
    }
}
