ghost use Rattle.std.specs.Prelude.{◌≡◌, ◌+◌, ◌<◌, ◌≤◌, [], ◌∷◌, ◌++◌, false, is_some, Some, None, OnOk, OnErr, MatchOption};
ghost use Rattle.interact_queue.specs.Queue.{is_in, is_holder, without, holder_without, next_holder};

use owned_lists::NoMemory;
use sm_world::Conn;
use std::alloc::Global;
use std::collections::VecDeque;
use std::marker::Model;

/// Who talks with the user, and who waits for that (XSMP, chapter 7: InteractRequest, Interact and
/// InteractDone). One connection has the token at a time; the others get it in the order in which
/// they asked.
#[derive(Drop)]
pub struct InteractQueue {
    waiting: VecDeque<Conn>,
    holder: Option<Conn>,
}

impl Model for InteractQueue {
    ghost use Rattle.std.specs.Prelude.{◌-◌};
    ghost use Rattle.std.specs.VecDeque.{deque_len, deque_capacity};
    ghost use Rattle.interact_queue.specs.Queue.{Queue};

    ghost Value = { Queue };

    ghost view = { λ q.
        record {
          waiting = q.waiting.items;
          holder = q.holder;
          spare = deque_capacity
              q.waiting - deque_len q.waiting;
        } };
}

impl InteractQueue {
    /// Nobody has the token, and nobody waits; this takes no memory.
    pub fn new(alloc: Global) -> InteractQueue
        ensures waiting { result.waiting ≡ [] }
        ensures holder { result.holder ≡ None }
    {
        InteractQueue {
            waiting: VecDeque::new(alloc),
            holder: None,
        }
    }

    /// Makes room for so many more that ask.
    pub fn reserve(&mut self, n: usize) -> Result<(), NoMemory>
        ensures room { OnOk result (n ≤ self.new.spare) }
        ensures spare { self.old.spare ≤ self.new.spare }
        ensures waiting { self.new.waiting ≡ self.old.waiting }
        ensures holder { self.new.holder ≡ self.old.holder }
        ensures refused { OnErr result (self.new ≡ self.old) }
    {
        let waiting = self.waiting.len();
        if n <= self.waiting.capacity() - waiting {
            return Ok(());
        }
        self.waiting.reserve_exact(n.max(waiting))?;
        Ok(())
    }

    /// Lets a connection wait behind all others. There must be room, and it may neither wait nor
    /// have the token already. This takes no memory.
    pub fn ask(&mut self, conn: Conn)
        requires room { 0 < self.old.spare }
        requires not_waiting { is_in conn self.old.waiting ≡ false }
        requires not_holding { is_holder conn self.old.holder ≡ false }
        ensures waiting { self.new.waiting ≡ self.old.waiting ++ conn ∷ [] }
        ensures holder { self.new.holder ≡ self.old.holder }
        ensures spare { self.new.spare + 1 ≡ self.old.spare }
    {
        self.waiting.push_back_reserved(conn);
    }

    /// Gives the token to the first that waits, who then waits no more. None where somebody has it
    /// or nobody waits, and then nothing changes. This takes no memory.
    pub fn grant(&mut self) -> Option<Conn>
        ensures next { result ≡ next_holder (is_some self.old.holder) self.old.waiting }
        ensures waiting { MatchOption result (self.new.waiting ≡ self.old.waiting) (λ conn.
            self.old.waiting ≡ conn ∷ self.new.waiting) }
        ensures holder { MatchOption result (self.new.holder ≡ self.old.holder) (λ conn.
            self.new.holder ≡ Some conn) }
        ensures spare { self.old.spare ≤ self.new.spare }
    {
        if self.holder.is_some() {
            return None;
        }
        self.holder = self.waiting.pop_front();
        self.holder
    }

    /// Nobody has the token any more. This takes no memory.
    pub fn release(&mut self)
        ensures waiting { self.new.waiting ≡ self.old.waiting }
        ensures holder { self.new.holder ≡ None }
        ensures spare { self.new.spare ≡ self.old.spare }
    {
        self.holder = None;
    }

    /// A connection neither waits nor has the token any more. This takes no memory.
    pub fn leave(&mut self, conn: Conn)
        ensures waiting { self.new.waiting ≡ without conn self.old.waiting }
        ensures holder { self.new.holder ≡ holder_without conn self.old.holder }
        ensures spare { self.old.spare ≤ self.new.spare }
    {
        self.waiting.retain(|other| *other != conn);
        self.holder = self.holder.filter(|holder| *holder != conn);
    }

    /// Who has the token.
    pub fn holder(&self) -> Option<Conn>
        ensures { result ≡ self.now.holder }
    {
        self.holder
    }

    /// Nobody has the token, and nobody waits any more. This takes no memory.
    pub fn clear(&mut self)
        ensures waiting { self.new.waiting ≡ [] }
        ensures holder { self.new.holder ≡ None }
        ensures spare { self.old.spare ≤ self.new.spare }
    {
        self.waiting.clear();
        self.release();
    }
}
