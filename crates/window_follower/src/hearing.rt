ghost use Rattle.std.specs.Prelude.{◌≡◌, Some, IfOk, OnOk};
ghost use Rattle.window_follower.specs.Following.{heard_of, look_again};
ghost use Rattle.window_follower.specs.Taking.{Brings, brings, error_brings, event_brings, heard, is_pong as pongs, news_of as news_in, pong_in, property_changed, reply_brings, root_changed, window_changed};
ghost use Rattle.window_follower.specs.Asked.{settled};
ghost use Rattle.window_follower.specs.declared.facts.Fact.TheVariants.{Mapped};
ghost use Rattle.window_follower.specs.declared.names.RootProperty.TheVariants.{Windows as ListOfWindows};

use crate::following::Following;
use crate::{Fact, Mode, Name, News, NumberProperty, Question, RootProperty, WindowProperty, Word};
use display_messages::{
    ClientMessage, DisplayError, Event, Part, WindowNotice, read_part, read_reply,
};
use owned_lists::NoMemory;

impl Question {
    /// What its answer says to whoever follows the windows.
    fn news(self) -> News
        ensures { result ≡ news_in self }
    {
        match self {
            Question::Mark { number } => News::Marked { number },
            _ => News::Nothing,
        }
    }
}

impl Following {
    fn hear_list_changed(&mut self) -> Result<(), NoMemory>
        ensures { OnOk result (self.new ≡ root_changed (Some ListOfWindows) self.old) }
    {
        match self.mode {
            Mode::Unknown => Ok(()),
            Mode::Listed { .. } => self.ask(Question::Root {
                window: self.root,
                property: RootProperty::Windows,
            }),
            Mode::Stated => Ok(()),
            Mode::Bare => Ok(()),
        }
    }

    fn hear_root_changed(&mut self, property: Option<RootProperty>) -> Result<(), NoMemory>
        ensures { OnOk result (self.new ≡ root_changed property self.old) }
    {
        match property {
            None => Ok(()),
            Some(RootProperty::Check) => self.look(),
            Some(RootProperty::Windows) => self.hear_list_changed(),
        }
    }

    fn hear_window_changed(
        &mut self,
        window: u32,
        property: Option<WindowProperty>,
    ) -> Result<(), NoMemory>
        ensures { OnOk result (self.new ≡ window_changed window property self.old) }
    {
        match property {
            None => Ok(()),
            Some(property) => self.ask(Question::Property { window, property }),
        }
    }

    fn hear_changed(&mut self, window: u32, atom: u32) -> Result<(), NoMemory>
        ensures { OnOk result (self.new ≡ property_changed window atom self.old) }
    {
        if window == self.root {
            let property = self.atoms.root_property(atom);
            return self.hear_root_changed(property);
        }
        if self.windows.is_followed(window) {
            let property = self.atoms.property(atom);
            return self.hear_window_changed(window, property);
        }
        Ok(())
    }

    fn hear_mapped(&mut self, notice: WindowNotice, mapped: bool) -> Result<(), NoMemory>
        ensures { OnOk result (self.new ≡ look_again notice.heard (heard_of notice.window (Mapped mapped) self.old)) }
    {
        self.hear_of(notice.window, Fact::Mapped(mapped))?;
        self.look_again(notice.heard)
    }

    /// Takes an event of the display's own.
    fn hear_event(&mut self, event: Event) -> Result<(), NoMemory>
        ensures { OnOk result (self.new ≡ heard event self.old) }
    {
        match event {
            Event::CreateNotify(notice) => self.look_again(notice.heard),
            Event::DestroyNotify(notice) => self.lose(notice.window),
            Event::UnmapNotify(notice) => self.hear_mapped(notice, false),
            Event::MapNotify(notice) => self.hear_mapped(notice, true),
            Event::ReparentNotify(notice) => self.look_again(notice.heard),
            Event::PropertyNotify { window, property } => self.hear_changed(window, property),
            Event::Message(_) => Ok(()),
            Event::Other => Ok(()),
        }
    }

    fn is_pong(&self, message: &ClientMessage) -> bool
        ensures { result ≡ pongs self.now message.now }
    {
        let protocols = Name::Property(WindowProperty::Numbers(NumberProperty::Protocols));
        message.window == self.root
            && (message.kind == self.atoms.atom(protocols)
                && message.first == self.atoms.atom(Name::Word(Word::Ping)))
    }

    /// What an event that a program sent says.
    fn hear_sent(&self, event: Event) -> News
        ensures { result ≡ pong_in self.now event }
    {
        match event {
            Event::Message(message) => {
                if self.is_pong(&message) {
                    News::Pong {
                        window: message.third,
                        stamp: message.second,
                    }
                } else {
                    News::Nothing
                }
            }
            _ => News::Nothing,
        }
    }

    fn take_error(&mut self, sequence: u16, error: DisplayError) -> Result<Option<News>, NoMemory>
        ensures { IfOk result (λ news. Brings news self.new (error_brings error (settled sequence self.old.asked) self.old)) }
    {
        match self.asked.settle(sequence) {
            Some(question) => {
                self.fail(question, error.kind)?;
                Ok(Some(News::Nothing))
            }
            None => Ok(None),
        }
    }

    fn take_reply(&mut self, sequence: u16, bytes: &[u8]) -> Result<Option<News>, NoMemory>
        ensures { IfOk result (λ news. Brings news self.new (reply_brings bytes.now (settled sequence self.old.asked) self.old)) }
    {
        let question = match self.asked.settle(sequence) {
            Some(question) => question,
            None => return Ok(None),
        };
        let kind = match question.answer_kind() {
            Some(kind) => kind,
            None => return Ok(None),
        };
        let reply = read_reply(self.alloc, kind, bytes)?;
        self.answer(question, reply)?;
        Ok(Some(question.news()))
    }

    fn take_event(&mut self, sent: bool, event: Event) -> Result<News, NoMemory>
        ensures { IfOk result (λ news. event_brings sent event self.old ≡ record {
          news = news;
          next = self.new;
        }) }
    {
        if sent {
            return Ok(self.hear_sent(event));
        }
        self.hear_event(event)?;
        Ok(News::Nothing)
    }

    /// Takes a part of the display's stream; none where it answers what nobody asked.
    pub(crate) fn take_part(&mut self, bytes: &[u8]) -> Result<Option<News>, NoMemory>
        ensures { IfOk result (λ news. Brings news self.new (brings bytes.now self.old)) }
    {
        match read_part(bytes) {
            Part::Error { sequence, error } => self.take_error(sequence, error),
            Part::Reply { sequence } => self.take_reply(sequence, bytes),
            Part::Event { sent, event } => Ok(Some(self.take_event(sent, event)?)),
            Part::Short => Ok(None),
        }
    }
}
