ghost use Rattle.std.specs.Prelude.{◌≡◌, Some, IfOk, OnOk};
ghost use Rattle.checkpoint_records.specs.declared.records.Book.{Book as ABook};
ghost use Rattle.round_agreement.specs.Agreement.{Agreement};
ghost use Rattle.session_model.specs.Rules.{agreement as agreement_moves, completed, ended};
ghost use Rattle.session_clients.specs.Clients.{clients_in};
ghost use Rattle.session_state.specs.Session.{moved_all, reading_in};
ghost use Rattle.manager_machine.specs.Agreeing.{completing, ending, planned};

use crate::rounds::copy_conns;
use crate::session_core::Core;
use checkpoint_records::EntryList;
use owned_lists::{CommandList, NoMemory};
use round_agreement::Round;
use session_books::{last_commands, next_entries};
use session_clients::Clients;
use session_model::Reason;
use sm_world::ConnList;
use std::alloc::Global;
use xsmp_messages::XsmpMessage;

/// What the clients are told at an agreement, and what goes with that.
#[derive(Drop)]
pub(crate) enum Completion {
    /// Each of these members gets a SaveComplete.
    Save(ConnList),
    /// The session ends.
    End(Ending),
}

/// How a session ends.
#[derive(Drop)]
pub(crate) struct Ending {
    /// Each of these connections gets a Die.
    pub(crate) registered: ConnList,
    /// Each of these is shut.
    pub(crate) others: ConnList,
    /// Each of these is started.
    pub(crate) commands: CommandList,
}

/// What an agreement brings, as it is computed before anything of it is done.
#[derive(Drop)]
pub(crate) struct Plan {
    /// The entries of the next book.
    pub(crate) entries: EntryList,
    pub(crate) completion: Completion,
    /// The DiscardCommands of the registered clients, which aren't tried.
    pub(crate) standing: CommandList,
}

impl Core {
    /// The members of the running round agreed: the next book is written, the clients are told, and
    /// what nobody needs any more is discarded.
    pub(crate) fn agreement(&mut self) -> Result<(), NoMemory>
        ensures { OnOk result ((round : Agreement) → self.old.round ≡ Some round →
            self.new ≡ moved_all (agreement_moves (reading_in self.old) round) self.old) }
    {
        let plan = match self.running.round() {
            Some(round) => self.plan_agreement(round)?,
            None => return Ok(()),
        };
        self.carry_out(plan)?;
        Ok(())
    }

    /// What an agreement of this round brings.
    fn plan_agreement(&self, round: &Round) -> Result<Plan, NoMemory>
        ensures { IfOk result (λ plan. planned (reading_in self.now).store plan
            ≡ agreement_moves (reading_in self.now) round.now) }
    {
        let alloc = *self.acts.allocator();
        let entries = next_entries(alloc, &self.clients, round, &self.book, &self.expected)?;
        let completion = plan_completion(alloc, &self.clients, round, &entries)?;
        let standing = self.clients.standing()?;
        Ok(Plan {
            entries,
            completion,
            standing,
        })
    }

    /// Does what an agreement brings.
    fn carry_out(&mut self, plan: Plan) -> Result<(), NoMemory>
        ensures { OnOk result
            (self.new ≡ moved_all (planned (reading_in self.old).store plan) self.old) }
    {
        self.commit_entries(plan.entries)?;
        self.agree()?;
        self.complete(&plan.completion)?;
        self.discard(&plan.standing)?;
        Ok(())
    }

    /// Tells the clients of an agreement.
    fn complete(&mut self, completion: &Completion) -> Result<(), NoMemory>
        ensures { OnOk result (self.new ≡ moved_all (completing completion.now) self.old) }
    {
        match completion {
            Completion::Save(conns) => self.say_each(conns.as_slice(), &XsmpMessage::SaveComplete),
            Completion::End(end) => self.end(end),
        }
    }

    /// Tells the registered clients to die, shuts the others, and starts the commands for the end.
    fn end(&mut self, end: &Ending) -> Result<(), NoMemory>
        ensures { OnOk result (self.new ≡ moved_all (ending end.now) self.old) }
    {
        self.kill_each(end.registered.as_slice())?;
        self.close_each(end.others.as_slice())?;
        self.start_each(Reason::End, &end.commands)?;
        Ok(())
    }
}

/// How the session ends with these entries.
fn plan_ending(alloc: Global, clients: &Clients, entries: &EntryList) -> Result<Ending, NoMemory>
    ensures { IfOk result (λ end. (book : ABook) → book.entries ≡ entries.now →
        ending end ≡ ended (clients_in clients.now) book) }
{
    Ok(Ending {
        registered: copy_conns(alloc, clients.registered())?,
        others: clients.unregistered()?,
        commands: last_commands(alloc, clients, entries)?,
    })
}

/// What goes with the agreement of a round that leaves these entries.
fn plan_completion(
    alloc: Global,
    clients: &Clients,
    round: &Round,
    entries: &EntryList,
) -> Result<Completion, NoMemory>
    ensures { IfOk result (λ completion. (book : ABook) → book.entries ≡ entries.now →
        completing completion ≡ completed round.now.wanted.shutdown
        (clients_in clients.now) round.now book) }
{
    if round.wanted().shutdown {
        Ok(Completion::End(plan_ending(alloc, clients, entries)?))
    } else {
        Ok(Completion::Save(copy_conns(alloc, round.members())?))
    }
}
