ghost use Rattle.std.specs.Prelude.{◌≡◌, ◌<◌, true, OnOk};
ghost use Rattle.window_follower.specs.Following.{asking_all};
ghost use Rattle.window_follower.specs.declared.question.Question.TheVariants.{Property, Shown};
ghost use Rattle.window_follower.specs.declared.mode.Mode.TheVariants.{Stated as StatedMode, Bare as BareMode};
ghost use Rattle.window_follower.specs.Answers.{answered, atom_in, checked, checked_root, checked_window, children_heard, children_in, events_heard, extended, failed, is_listing as lists, is_other, is_shown as shown_in, list_heard, lost, mode_by, named_by, names_processes as processes_named, opcode_in, process_in, questions_below, root_heard, state_heard, unlisted, versioned};

use crate::following::Following;
use crate::reading::{first_named, read_fact, read_numbers};
use crate::{Fact, Mode, Question, RootProperty, WindowProperty};
use display_messages::{
    Attributes, ErrorKind, PROPERTY_CHANGE, Reply, STRUCTURE_NOTIFY, SUBSTRUCTURE_REDIRECT,
};
use owned_lists::NoMemory;

/// How many levels below the root a window manager has windows of programs.
const DEEPEST: u8 = 3;

fn atom_of(reply: &Reply) -> u32
    ensures { result ≡ atom_in reply.now }
{
    match reply {
        Reply::Atom(atom) => *atom,
        _ => 0,
    }
}

fn opcode_of(reply: &Reply) -> Option<u8>
    ensures { result ≡ opcode_in reply.now }
{
    match reply {
        Reply::Extension(opcode) => *opcode,
        _ => None,
    }
}

fn names_processes(reply: &Reply) -> bool
    ensures { result ≡ processes_named reply.now }
{
    match reply {
        Reply::ResourceVersion { major, minor } => *major > 1 || (*major == 1 && *minor >= 2),
        _ => false,
    }
}

fn process_of(reply: &Reply) -> Option<u32>
    ensures { result ≡ process_in reply.now }
{
    match reply {
        Reply::Process(process) => *process,
        _ => None,
    }
}

fn is_shown(reply: &Reply) -> bool
    ensures { result ≡ shown_in reply.now }
{
    match reply {
        Reply::Attributes(a) => a.input_output && (a.mapped && !a.override_redirect),
        _ => false,
    }
}

fn mode_of(attributes: &Attributes) -> Mode
    ensures { result ≡ mode_by attributes.now }
{
    if attributes.all_events / SUBSTRUCTURE_REDIRECT % 2 == 1 {
        Mode::Stated
    } else {
        Mode::Bare
    }
}

impl Following {
    fn name(&mut self, atom: u32) -> Result<(), NoMemory>
        ensures { OnOk result (self.new ≡ named_by atom self.old) }
    {
        self.atoms.push(atom)
    }

    fn extend(&mut self, opcode: Option<u8>) -> Result<(), NoMemory>
        ensures { OnOk result (self.new ≡ extended opcode self.old) }
    {
        match opcode {
            None => self.begin_looking(),
            Some(opcode) => self.ask(Question::Version { opcode }),
        }
    }

    fn version(&mut self, opcode: u8, names: bool) -> Result<(), NoMemory>
        ensures { OnOk result (self.new ≡ versioned opcode names self.old) }
    {
        if names {
            self.resource = Some(opcode);
        }
        self.begin_looking()
    }

    /// There is no window manager that keeps a list.
    fn miss_list(&mut self) -> Result<(), NoMemory>
        ensures { OnOk result (self.new ≡ unlisted self.old) }
    {
        self.ask(Question::Events { window: self.root })
    }

    fn check_root(&mut self, check: Option<u32>) -> Result<(), NoMemory>
        ensures { OnOk result (self.new ≡ checked_root check self.old) }
    {
        let Some(check) = check else {
            return self.miss_list();
        };
        if check == self.root {
            return self.miss_list();
        }
        self.asked.ask_all(&[
            Question::Watch {
                window: check,
                events: PROPERTY_CHANGE + STRUCTURE_NOTIFY,
            },
            Question::Root {
                window: check,
                property: RootProperty::Check,
            },
        ])
    }

    fn check_window(&mut self, window: u32, check: Option<u32>) -> Result<(), NoMemory>
        ensures { OnOk result (self.new ≡ checked_window window check self.old) }
    {
        let Some(check) = check else {
            return self.miss_list();
        };
        if check != window {
            return self.miss_list();
        }
        self.mode = Mode::Listed { check: window };
        self.ask(Question::Root {
            window: self.root,
            property: RootProperty::Windows,
        })
    }

    /// A window names this one, or none, as the window manager's own.
    fn check(&mut self, window: u32, check: Option<u32>) -> Result<(), NoMemory>
        ensures { OnOk result (self.new ≡ checked window check self.old) }
    {
        if window == self.root {
            self.check_root(check)
        } else {
            self.check_window(window, check)
        }
    }

    fn is_listing(&self) -> bool
        ensures { result ≡ lists self.now.mode }
    {
        match self.mode {
            Mode::Unknown => false,
            Mode::Listed { .. } => true,
            Mode::Stated => false,
            Mode::Bare => false,
        }
    }

    fn hear_list(&mut self, windows: &[u32]) -> Result<(), NoMemory>
        ensures { OnOk result (self.new ≡ list_heard windows.now self.old) }
    {
        if self.is_listing() {
            return self.come_all(windows);
        }
        Ok(())
    }

    fn hear_root(
        &mut self,
        window: u32,
        property: RootProperty,
        numbers: &[u32],
    ) -> Result<(), NoMemory>
        ensures { OnOk result (self.new ≡ root_heard window property numbers.now self.old) }
    {
        match property {
            RootProperty::Check => self.check(window, first_named(numbers)),
            RootProperty::Windows => self.hear_list(numbers),
        }
    }

    fn hear_events(&mut self, reply: &Reply) -> Result<(), NoMemory>
        ensures { OnOk result (self.new ≡ events_heard reply.now self.old) }
    {
        match reply {
            Reply::Attributes(attributes) => {
                self.mode = mode_of(attributes);
                self.ask(Question::Children {
                    window: self.root,
                    depth: 0,
                })
            }
            _ => Ok(()),
        }
    }

    fn ask_states(&mut self, depth: u8, windows: &[u32]) -> Result<(), NoMemory>
        requires { depth < 3 }
        ensures { OnOk result (self.new ≡ asking_all (questions_below StatedMode depth windows.now) self.old) }
    {
        for window in windows {
            self.ask(Question::Managed {
                window: *window,
                depth: depth + 1,
            })?;
        }
        Ok(())
    }

    fn ask_shown(&mut self, depth: u8, windows: &[u32]) -> Result<(), NoMemory>
        ensures { OnOk result (self.new ≡ asking_all (questions_below BareMode depth windows.now) self.old) }
    {
        for window in windows {
            self.ask(Question::Shown { window: *window })?;
        }
        Ok(())
    }

    fn hear_children(&mut self, depth: u8, windows: &[u32]) -> Result<(), NoMemory>
        ensures { OnOk result (self.new ≡ children_heard depth windows.now self.old) }
    {
        if depth >= DEEPEST {
            return Ok(());
        }
        match self.mode {
            Mode::Unknown => Ok(()),
            Mode::Listed { .. } => Ok(()),
            Mode::Stated => self.ask_states(depth, windows),
            Mode::Bare => self.ask_shown(depth, windows),
        }
    }

    fn hear_tree(&mut self, depth: u8, reply: &Reply) -> Result<(), NoMemory>
        ensures { OnOk result (self.new ≡ children_heard depth (children_in reply.now) self.old) }
    {
        match reply {
            Reply::Tree { children, .. } => self.hear_children(depth, children.as_slice()),
            _ => self.hear_children(depth, &[]),
        }
    }

    fn hear_state(&mut self, window: u32, depth: u8, numbers: &[u32]) -> Result<(), NoMemory>
        ensures { OnOk result (self.new ≡ state_heard window depth numbers.now self.old) }
    {
        match numbers.first() {
            None => {
                if depth < DEEPEST {
                    self.ask(Question::Children { window, depth })
                } else {
                    Ok(())
                }
            }
            Some(number) => {
                if *number == 1 || *number == 3 {
                    self.come(window)
                } else {
                    Ok(())
                }
            }
        }
    }

    fn hear_shown(&mut self, window: u32, reply: &Reply) -> Result<(), NoMemory>
        ensures { OnOk result (self.new ≡ answered (Shown window) reply.now self.old) }
    {
        if is_shown(reply) {
            return self.come(window);
        }
        Ok(())
    }

    fn hear_property(
        &mut self,
        window: u32,
        property: WindowProperty,
        reply: Reply,
    ) -> Result<(), NoMemory>
        ensures { OnOk result (self.new ≡ answered (Property window property) reply self.old) }
    {
        let fact = read_fact(self.alloc, &self.atoms, property, reply)?;
        self.hear_of(window, fact)
    }

    /// Takes the reply to a question other than one for a property of a followed window.
    fn hear_reply(&mut self, question: Question, reply: &Reply) -> Result<(), NoMemory>
        requires { is_other question ≡ true }
        ensures { OnOk result (self.new ≡ answered question reply.now self.old) }
    {
        match question {
            Question::Atom(_) => self.name(atom_of(reply)),
            Question::Extension => self.extend(opcode_of(reply)),
            Question::Version { opcode } => self.version(opcode, names_processes(reply)),
            Question::Root { window, property } => {
                let numbers = read_numbers(self.alloc, reply)?;
                self.hear_root(window, property, numbers.as_slice())
            }
            Question::Events { .. } => self.hear_events(reply),
            Question::Process { window, .. } => {
                self.hear_of(window, Fact::Owner(process_of(reply)))
            }
            Question::Children { depth, .. } => self.hear_tree(depth, reply),
            Question::Managed { window, depth } => {
                let numbers = read_numbers(self.alloc, reply)?;
                self.hear_state(window, depth, numbers.as_slice())
            }
            Question::Shown { window } => self.hear_shown(window, reply),
            Question::Property { .. } => Ok(()),
            Question::Watch { .. } => Ok(()),
            Question::Close { .. } => Ok(()),
            Question::Show { .. } => Ok(()),
            Question::Ping { .. } => Ok(()),
            Question::Mark { .. } => Ok(()),
        }
    }

    /// Takes the reply to a question.
    pub(crate) fn answer(&mut self, question: Question, reply: Reply) -> Result<(), NoMemory>
        ensures { OnOk result (self.new ≡ answered question reply self.old) }
    {
        match question {
            Question::Property { window, property } => self.hear_property(window, property, reply),
            other => self.hear_reply(other, &reply),
        }
    }

    fn lose_by(&mut self, kind: ErrorKind, window: u32) -> Result<(), NoMemory>
        ensures { OnOk result (self.new ≡ lost kind window self.old) }
    {
        match kind {
            ErrorKind::BadWindow => self.lose(window),
            ErrorKind::Other(_) => Ok(()),
        }
    }

    /// Takes an Error to a question.
    pub(crate) fn fail(&mut self, question: Question, kind: ErrorKind) -> Result<(), NoMemory>
        ensures { OnOk result (self.new ≡ failed question kind self.old) }
    {
        match question {
            Question::Atom(_) => self.name(0),
            Question::Extension => self.begin_looking(),
            Question::Version { .. } => self.begin_looking(),
            Question::Root {
                window,
                property: RootProperty::Check,
            } => self.check(window, None),
            Question::Root {
                property: RootProperty::Windows,
                ..
            } => Ok(()),
            Question::Watch { window, .. } => self.lose_by(kind, window),
            Question::Property { window, .. } => self.lose_by(kind, window),
            Question::Process { window, .. } => self.lose_by(kind, window),
            Question::Children { window, .. } => self.lose_by(kind, window),
            Question::Managed { window, .. } => self.lose_by(kind, window),
            Question::Shown { window } => self.lose_by(kind, window),
            Question::Close { window } => self.lose_by(kind, window),
            Question::Ping { window, .. } => self.lose_by(kind, window),
            Question::Events { .. } => Ok(()),
            Question::Show { .. } => Ok(()),
            Question::Mark { .. } => Ok(()),
        }
    }
}
