ghost use Rattle.std.specs.Prelude.{◌≡◌, ◌-◌, ◌++◌, ◌∷◌, ◌||◌, [], ℕ, List, OnOk, option_copied};
ghost use Rattle.frame_speech.specs.Passing.{IsAlone};
ghost use Rattle.session_watch.specs.Story.{Passage, stream_of};
ghost use Rattle.session_watch.specs.Knowing.{Follows, program_of, id_of, asked_of, answered_of, is_logout, stage_of, silent_since, is_lost, is_unreadable};
ghost use Rattle.session_watch.specs.declared.party.Party.TheVariants.{Client, Manager};

use crate::asking::{Answered, Asked};
use crate::known::Known;
use crate::party::Party;
use crate::spoken::{Messages, note_frames, note_spoken};
use crate::stage::Stage;
use frame_speech::{CutStream, Heeds, Speech};
use ice_values::Endian;
use owned_lists::{NoMemory, Octets};
use std::alloc::Global;

/// What is known of a client by the frames that pass on its connection.
#[derive(Debug, Drop)]
pub struct ClientWatch {
    alloc: Global,
    /// What the client sends.
    came: CutStream,
    said: Speech,
    /// What the manager sends.
    sent: CutStream,
    told: Speech,
    known: Known,
    /// When the client was heard last, or came.
    since: u64,
}

fn is_lost(speech: Speech) -> bool
    ensures { result ≡ is_lost speech }
{
    match speech {
        Speech::Silent => false,
        Speech::Greeted => false,
        Speech::Speaks(_) => false,
        Speech::Lost => true,
    }
}

impl ClientWatch {
    /// A connection that begins now; this takes no memory.
    pub fn new(alloc: Global, now: u64) -> ClientWatch
        ensures { Follows now [] result }
    {
        ClientWatch {
            alloc,
            came: CutStream::new(alloc),
            said: Speech::Silent,
            sent: CutStream::new(alloc),
            told: Speech::Silent,
            known: Known::nothing(),
            since: now,
        }
    }

    /// Hears what the client sends. After NoMemory nothing more is known.
    pub fn hear(&mut self, now: u64, bytes: &[u8]) -> Result<(), NoMemory>
        ensures { OnOk result ((start : ℕ) (story : List Passage) → Follows start story self.old
            → Follows start (story ++ record { by = Client; at = now; bytes = bytes.now } ∷ []) self.new) }
    {
        match self.came.alone(bytes) {
            Some(endian) => self.hear_alone(now, endian, bytes),
            None => self.hear_piece(now, bytes),
        }
    }

    /// Hears one whole frame of the client's, which comes between two frames and is read where it lies,
    /// unless it may change how the client is understood.
    fn hear_alone(&mut self, now: u64, endian: Endian, bytes: &[u8]) -> Result<(), NoMemory>
        requires { IsAlone endian bytes.now self.old.came }
        ensures { OnOk result ((start : ℕ) (story : List Passage) → Follows start story self.old
            → Follows start (story ++ record { by = Client; at = now; bytes = bytes.now } ∷ []) self.new) }
    {
        let (alloc, said) = (self.alloc, self.said);
        if said.heeds(endian, bytes) {
            return self.hear_set(now, endian, bytes);
        }
        self.since = now;
        note_spoken(alloc, Party::Client, said, endian, bytes, &mut self.known)
    }

    /// Hears one whole frame of the client's, which comes between two frames and may set properties: these
    /// are read where they lie.
    fn hear_set(&mut self, now: u64, endian: Endian, bytes: &[u8]) -> Result<(), NoMemory>
        requires { IsAlone endian bytes.now self.old.came }
        ensures { OnOk result ((start : ℕ) (story : List Passage) → Follows start story self.old
            → Follows start (story ++ record { by = Client; at = now; bytes = bytes.now } ∷ []) self.new) }
    {
        if let Some(walk) = self.said.settings(endian, bytes) {
            self.since = now;
            return self.known.note_set(self.alloc, Party::Client, walk);
        }
        self.hear_piece(now, bytes)
    }

    /// Hears what the client sends, cut into frames.
    fn hear_piece(&mut self, now: u64, bytes: &[u8]) -> Result<(), NoMemory>
        ensures { OnOk result ((start : ℕ) (story : List Passage) → Follows start story self.old
            → Follows start (story ++ record { by = Client; at = now; bytes = bytes.now } ∷ []) self.new) }
    {
        self.since = now;
        if self.came.passes(&Messages { speech: self.said }, bytes) {
            return Ok(());
        }
        let frames = self.came.take(self.alloc, bytes)?;
        let frames = frames.as_slice();
        self.said = note_frames(
            self.alloc,
            Party::Client,
            self.said,
            frames,
            &mut self.known,
        )?;
        Ok(())
    }

    /// Takes note of what the manager sends. After NoMemory nothing more is known.
    pub fn tell(&mut self, now: u64, bytes: &[u8]) -> Result<(), NoMemory>
        ensures { OnOk result ((start : ℕ) (story : List Passage) → Follows start story self.old
            → Follows start (story ++ record { by = Manager; at = now; bytes = bytes.now } ∷ []) self.new) }
    {
        match self.sent.alone(bytes) {
            Some(endian) => self.tell_alone(now, endian, bytes),
            None => self.tell_piece(now, bytes),
        }
    }

    /// Takes note of one whole frame of the manager's, which comes between two frames and is read where it
    /// lies, unless it may change how the manager is understood.
    fn tell_alone(&mut self, now: u64, endian: Endian, bytes: &[u8]) -> Result<(), NoMemory>
        requires { IsAlone endian bytes.now self.old.sent }
        ensures { OnOk result ((start : ℕ) (story : List Passage) → Follows start story self.old
            → Follows start (story ++ record { by = Manager; at = now; bytes = bytes.now } ∷ []) self.new) }
    {
        let (alloc, told) = (self.alloc, self.told);
        if told.heeds(endian, bytes) {
            return self.tell_piece(now, bytes);
        }
        note_spoken(alloc, Party::Manager, told, endian, bytes, &mut self.known)
    }

    /// Takes note of what the manager sends, cut into frames.
    fn tell_piece(&mut self, now: u64, bytes: &[u8]) -> Result<(), NoMemory>
        ensures { OnOk result ((start : ℕ) (story : List Passage) → Follows start story self.old
            → Follows start (story ++ record { by = Manager; at = now; bytes = bytes.now } ∷ []) self.new) }
    {
        if self.sent.passes(&Messages { speech: self.told }, bytes) {
            return Ok(());
        }
        let frames = self.sent.take(self.alloc, bytes)?;
        let frames = frames.as_slice();
        self.told = note_frames(
            self.alloc,
            Party::Manager,
            self.told,
            frames,
            &mut self.known,
        )?;
        Ok(())
    }

    /// What the client says that its program is.
    pub fn program(&self) -> Option<&Octets>
        ensures { (start : ℕ) (story : List Passage) → Follows start story self.now →
            option_copied result ≡ program_of story }
    {
        self.known.program.as_ref()
    }

    /// The ID that the manager gave it.
    pub fn id(&self) -> Option<&Octets>
        ensures { (start : ℕ) (story : List Passage) → Follows start story self.now →
            option_copied result ≡ id_of story }
    {
        self.known.id.as_ref()
    }

    /// What it was asked last.
    pub fn asked(&self) -> Option<Asked>
        ensures { (start : ℕ) (story : List Passage) → Follows start story self.now →
            result ≡ asked_of story }
    {
        self.known.asked
    }

    /// What it has answered since.
    pub fn answered(&self) -> Option<Answered>
        ensures { (start : ℕ) (story : List Passage) → Follows start story self.now →
            result ≡ answered_of story }
    {
        self.known.answered
    }

    /// Whether a logout runs for it.
    pub fn is_logout(&self) -> bool
        ensures { (start : ℕ) (story : List Passage) → Follows start story self.now →
            result ≡ is_logout story }
    {
        self.known.logout.unwrap_or(false)
    }

    fn is_unreadable(&self) -> bool
        ensures { (start : ℕ) (story : List Passage) → Follows start story self.now →
            result ≡ (is_unreadable (stream_of Client story) || is_unreadable
            (stream_of Manager story)) }
    {
        let came = self.came.has_ended() || is_lost(self.said);
        let sent = self.sent.has_ended() || is_lost(self.told);
        came || sent
    }

    /// How far it is.
    pub fn stage(&self) -> Stage
        ensures { (start : ℕ) (story : List Passage) → Follows start story self.now →
            result ≡ stage_of story }
    {
        if self.is_unreadable() {
            Stage::Unreadable
        } else {
            Stage::after(self.known.work, self.known.asked)
        }
    }

    /// For how many milliseconds nothing was heard of it.
    pub fn silent(&self, now: u64) -> u64
        ensures { (start : ℕ) (story : List Passage) → Follows start story self.now →
            result ≡ now - silent_since start story }
    {
        now.saturating_sub(self.since)
    }
}
