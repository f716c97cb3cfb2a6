ghost use Rattle.std.specs.Prelude.{◌≡◌, false, IsTrue, IfOk};
ghost use Rattle.round_agreement.specs.Agreement.{is_saving, is_first_saving, is_saved, is_at, is_nil, conns_of, are_distinct, all_saving, with_step, without_member, with_second, owing, two_ready as second_ready, all_done, agreed as all_agreed, deserted as all_left};
ghost use Rattle.round_agreement.specs.declared.round.Step.TheVariants.{WantsTwo, Done};

use crate::Wanted;
use crate::members::{count_saving, is_nil, set_second, set_step, somebody_wants_two};
use owned_lists::NoMemory;
use sm_world::{Conn, ConnList};
use std::alloc::Global;
use std::marker::Model;

/// How far a member of a round is with its save (XSMP, chapter 7: SaveYourself to
/// SaveYourselfPhase2).
#[derive(Clone, Copy, Debug, PartialEq, Eq)]
pub enum Step {
    /// It saves in the first phase.
    Saving,
    /// It waits for the second phase, which begins when the others are done.
    WantsTwo,
    /// It saves in the second phase.
    SavingTwo,
    /// It has saved, with success or without.
    Done(bool),
}

/// A member of a round.
#[derive(Clone, Copy, Debug, PartialEq, Eq)]
pub struct Member {
    pub conn: Conn,
    pub step: Step,
}

/// A round of saves (XSMP, chapter 7: SaveYourself). It goes on until every member has said
/// SaveYourselfDone; those that said SaveYourselfPhase2Request save when the others are done. What
/// each message has to know of all members is counted, so that none of them is gone over for it.
#[derive(Drop)]
pub struct Round {
    conns: Vec<Conn>,
    members: Vec<Member>,
    saving: usize,
    is_second_wanted: bool,
    began_empty: bool,
    wanted: Wanted,
}

impl Model for Round {
    ghost use Rattle.std.specs.Prelude.{◌≡◌, true};
    ghost use Rattle.std.specs.List.{list_any};
    ghost use Rattle.round_agreement.specs.Agreement.{Agreement, are_distinct, conns_of, count_at, is_saving, wants_two};

    ghost Value = { Agreement };

    ghost view = { λ r.
        record { members = r.members.items; began_empty = r.began_empty; wanted = r.wanted } };

    ghost invariant = { λ r. (r.conns.items ≡ conns_of r.members.items)
        × (are_distinct r.conns.items ≡ true)
        × (r.saving ≡ count_at is_saving r.members.items)
        × (r.is_second_wanted ≡ list_any (λ m. wants_two m.step) r.members.items) };
}

impl Round {
    /// Begins a round in which all members save in the first phase. No member may stand twice. A
    /// refused call drops the list.
    pub fn begin(alloc: Global, members: ConnList, wanted: Wanted) -> Result<Round, NoMemory>
        requires { IsTrue (are_distinct members) }
        ensures members { IfOk result (λ round. round.members ≡ all_saving members) }
        ensures empty { IfOk result (λ round. round.began_empty ≡ is_nil members) }
        ensures wanted { IfOk result (λ round. round.wanted ≡ wanted) }
    {
        let conns = members.into_vec();
        let mut members = Vec::with_capacity(alloc, conns.len())?;
        for conn in &conns {
            members.push(Member {
                conn: *conn,
                step: Step::Saving,
            })?;
        }
        Ok(Round {
            began_empty: is_nil(&conns),
            saving: conns.len(),
            is_second_wanted: false,
            conns,
            members,
            wanted,
        })
    }

    /// Makes a member done, with success or without. It must be saving, in either phase.
    pub fn done(&mut self, conn: Conn, success: bool)
        requires { IsTrue (is_at is_saving conn self.old.members) }
        ensures members { self.new.members ≡ with_step conn (Done success) self.old.members }
        ensures empty { self.new.began_empty ≡ self.old.began_empty }
        ensures wanted { self.new.wanted ≡ self.old.wanted }
    {
        self.stop_saving(conn, Step::Done(success));
    }

    /// Notes that a member wants to save in the second phase. It must be saving in the first.
    pub fn wants_two(&mut self, conn: Conn)
        requires { IsTrue (is_at is_first_saving conn self.old.members) }
        ensures members { self.new.members ≡ with_step conn WantsTwo self.old.members }
        ensures empty { self.new.began_empty ≡ self.old.began_empty }
        ensures wanted { self.new.wanted ≡ self.old.wanted }
    {
        self.stop_saving(conn, Step::WantsTwo);
    }

    /// Brings a member that saves to a step at which it doesn't.
    fn stop_saving(&mut self, conn: Conn, step: Step)
        requires saving { IsTrue (is_at is_saving conn self.old.members) }
        requires stops { is_saving step ≡ false }
        ensures members { self.new.members ≡ with_step conn step self.old.members }
        ensures empty { self.new.began_empty ≡ self.old.began_empty }
        ensures wanted { self.new.wanted ≡ self.old.wanted }
    {
        set_step(&mut self.members, &self.conns, conn, step);
        self.saving -= 1;
        self.is_second_wanted |= step.wants_two();
    }

    /// Takes a member out, if it is one.
    pub fn leave(&mut self, conn: Conn)
        ensures members { self.new.members ≡ without_member conn self.old.members }
        ensures empty { self.new.began_empty ≡ self.old.began_empty }
        ensures wanted { self.new.wanted ≡ self.old.wanted }
    {
        self.members.retain(|member| member.conn != conn);
        self.conns.retain(|other| *other != conn);
        self.saving = count_saving(&self.members);
        self.is_second_wanted = somebody_wants_two(&self.members);
    }

    /// Whether the second phase can begin: every member is done or wants it, and one wants it.
    pub fn two_ready(&self) -> bool
        ensures { result ≡ second_ready self.now.members }
    {
        self.saving == 0 && self.is_second_wanted
    }

    /// Lets those that want the second phase save in it, which must be able to begin.
    pub fn start_two(&mut self)
        requires { IsTrue (second_ready self.old.members) }
        ensures members { self.new.members ≡ with_second self.old.members }
        ensures empty { self.new.began_empty ≡ self.old.began_empty }
        ensures wanted { self.new.wanted ≡ self.old.wanted }
    {
        set_second(&mut self.members);
        self.saving = count_saving(&self.members);
        self.is_second_wanted = false;
    }

    /// Whether every member is done.
    fn are_done(&self) -> bool
        ensures { result ≡ all_done self.now.members }
    {
        self.saving == 0 && !self.is_second_wanted
    }

    /// Whether all agree: every member is done, and there is one, or the round began without any.
    pub fn agreed(&self) -> bool
        ensures { result ≡ all_agreed self.now }
    {
        self.are_done() && (self.began_empty || !is_nil(&self.members))
    }

    /// Whether the round began with members and all have left it.
    pub fn deserted(&self) -> bool
        ensures { result ≡ all_left self.now }
    {
        !self.began_empty && is_nil(&self.members)
    }

    /// Whether this connection is a member that is done with success.
    pub fn succeeded(&self, conn: Conn) -> bool
        ensures { result ≡ is_at is_saved conn self.now.members }
    {
        self.members
            .iter()
            .any(|m| m.conn == conn && m.step.is_saved())
    }

    /// Ends the round, and gives the members that still owe a SaveYourselfDone, in order. They
    /// come in memory that the round held.
    pub fn cancel(self) -> ConnList
        ensures { result ≡ owing self.members }
    {
        let Round { conns, members, .. } = self;
        let mut left = conns;
        left.clear();
        for member in &members {
            if !member.step.is_done() {
                left.push_reserved(member.conn);
            }
        }
        ConnList::from_vec(left)
    }

    /// The members that haven't left, in their order.
    pub fn members(&self) -> &[Conn]
        ensures { result.now ≡ conns_of self.now.members }
    {
        self.conns.as_slice()
    }

    /// What the round was begun for.
    pub fn wanted(&self) -> &Wanted
        ensures { result.now ≡ self.now.wanted }
    {
        &self.wanted
    }
}
