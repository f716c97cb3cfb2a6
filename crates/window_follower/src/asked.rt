ghost use Rattle.std.specs.Prelude.{◌≡◌, ◌<◌, ◌∷◌, [], ◌++◌, ◌≤◌, length, map, take, drop, Some, None, IfOk, OnOk, MatchOption};
ghost use Rattle.window_follower.specs.Asked.{ask as asks, ask_all as asks_all, room, moved, wants_mark, sends, after_sending, settled};
ghost use Rattle.window_follower.specs.declared.question.Question.TheVariants.{Atom, Mark, Property};

use crate::{Name, Question, QuestionList, WindowProperty};
use owned_lists::NoMemory;
use std::alloc::Global;
use std::collections::VecDeque;
use std::marker::Model;

/// How many questions may be open before a mark has to be.
const OPEN_LIMIT: usize = 65_534;

/// A mark that nobody asked for.
const OWN_MARK: Question = Question::Mark { number: 0 };

/// What was asked of a display and isn't answered, and what is to be asked of it. Answers come in the
/// order of the questions, and name them by 16 bits of their number (X protocol, chapter 1: Request
/// Format).
#[derive(Drop)]
pub struct AskedQueue {
    /// The number of the first that is open.
    first: u16,
    unanswered: VecDeque<Question>,
    waiting: VecDeque<Question>,
}

impl Model for AskedQueue {
    ghost use Rattle.std.specs.Prelude.{◌≤◌, length};
    ghost use Rattle.window_follower.specs.Asked.{Asked};

    ghost Value = { Asked };

    ghost view = { λ q.
        record {
          first = q.first;
          unanswered = q.unanswered.items;
          waiting = q.waiting.items;
        } };

    ghost invariant = { λ q. length q.unanswered.items ≤ 65535 };
}

impl AskedQueue {
    /// Nothing was asked; this takes no memory. The first question will have the number 1.
    pub fn new(alloc: Global) -> AskedQueue
        ensures { result ≡ record {
          first = 1;
          unanswered = [];
          waiting = [];
        } }
    {
        AskedQueue {
            first: 1,
            unanswered: VecDeque::new(alloc),
            waiting: VecDeque::new(alloc),
        }
    }

    /// A question is to be asked behind all others.
    pub fn ask(&mut self, question: Question) -> Result<(), NoMemory>
        ensures { OnOk result (self.new ≡ asks question self.old) }
    {
        self.waiting.push_back(question)?;
        Ok(())
    }

    /// Some questions are to be asked behind all others.
    pub fn ask_all(&mut self, questions: &[Question]) -> Result<(), NoMemory>
        ensures { OnOk result (self.new ≡ asks_all questions.now self.old) }
    {
        for question in questions {
            self.ask(*question)?;
        }
        Ok(())
    }

    /// The atoms of some names are to be asked for.
    pub(crate) fn ask_names(&mut self, names: &[Name]) -> Result<(), NoMemory>
        ensures { OnOk result (self.new ≡ asks_all (map (λ name. Atom name) names.now) self.old) }
    {
        for name in names {
            self.ask(Question::Atom(*name))?;
        }
        Ok(())
    }

    /// Some properties of a window are to be asked for.
    pub(crate) fn ask_properties(
        &mut self,
        window: u32,
        properties: &[WindowProperty],
    ) -> Result<(), NoMemory>
        ensures { OnOk result (self.new ≡ asks_all (map (λ property. Property window property) properties.now) self.old) }
    {
        for property in properties {
            self.ask(Question::Property {
                window,
                property: *property,
            })?;
        }
        Ok(())
    }

    /// The first of those that wait is asked.
    fn send_first(&mut self, sent: &mut QuestionList) -> Result<(), NoMemory>
        requires { length self.old.unanswered < 65534 }
        ensures sent { OnOk result (sent.new ≡ sent.old ++ take 1 self.old.waiting) }
        ensures after { OnOk result (self.new ≡ moved 1 self.old) }
    {
        if let Some(question) = self.waiting.pop_front() {
            self.unanswered.push_back(question)?;
            sent.push(question)?;
        }
        Ok(())
    }

    /// What waits is asked, as far as there is room.
    fn send_waiting(&mut self, sent: &mut QuestionList) -> Result<(), NoMemory>
        ensures sent { OnOk result (sent.new ≡ sent.old ++ take (room self.old) self.old.waiting) }
        ensures after { OnOk result (self.new ≡ moved (room self.old) self.old) }
    {
        let room = OPEN_LIMIT.saturating_sub(self.unanswered.len());
        for _turn in 0..room.min(self.waiting.len()) {
            self.send_first(sent)?;
        }
        Ok(())
    }

    /// Whether a mark is to be asked behind what waits.
    fn wants_mark(&self) -> bool
        ensures { result ≡ wants_mark self.now }
    {
        let unanswered = self.unanswered.len();
        OPEN_LIMIT.saturating_sub(unanswered) < self.waiting.len() && unanswered <= OPEN_LIMIT
    }

    fn send_mark(&mut self, sent: &mut QuestionList) -> Result<(), NoMemory>
        requires { length self.old.unanswered ≤ 65534 }
        ensures sent { OnOk result (sent.new ≡ sent.old ++ Mark 0 ∷ []) }
        ensures after { OnOk result (self.new ≡ record self.old {
          unanswered = self.old.unanswered
              ++ Mark 0 ∷ [];
        }) }
    {
        self.unanswered.push_back(OWN_MARK)?;
        sent.push(OWN_MARK)
    }

    /// Gives what is to be sent now: what waits, as long as no more than 65,534 are open, and a mark behind
    /// them where more waits.
    pub fn send(&mut self, alloc: Global) -> Result<QuestionList, NoMemory>
        ensures sent { IfOk result (λ sent. sent ≡ sends self.old) }
        ensures after { OnOk result (self.new ≡ after_sending self.old) }
    {
        let mut sent = QuestionList::new(alloc);
        let wants_mark = self.wants_mark();
        self.send_waiting(&mut sent)?;
        if wants_mark {
            self.send_mark(&mut sent)?;
        }
        Ok(sent)
    }

    /// The question of this number, to which something came; it is open no more, nor are those before it,
    /// which went well. None where there is no such question, or an answer to one before it is wanting.
    pub fn settle(&mut self, sequence: u16) -> Option<Question>
        ensures { MatchOption result (settled sequence self.old ≡ None) (λ question.
            settled sequence self.old ≡ Some (record {
              question = question;
              next = self.new;
            })) }
    {
        while let Some(question) = self.unanswered.pop_front() {
            let number = self.first;
            self.first = self.first.wrapping_add(1);
            if number == sequence {
                return Some(question);
            }
            if question.has_answer() {
                return None;
            }
        }
        None
    }
}
