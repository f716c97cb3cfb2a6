ghost use Rattle.std.specs.Prelude.{◌≡◌, ◌≤◌, ◌+◌, ◌-◌};

/// How many milliseconds a tick tells at most, and how many count of a step that takes longer. In one that
/// does, the manager itself stood still, and that is nobody's silence.
pub const LONGEST: u64 = 500;

/// What a clock showed, and how much time there is to tell of by ticks. All in milliseconds.
///
/// Time is told that was spent listening. What went by before something is given to somebody is told to
/// nobody, and neither is what is forgotten.
#[derive(Clone, Copy, Debug, PartialEq, Eq)]
pub struct Hours {
    /// What the clock showed last. It never shows less.
    read: u64,
    /// What it showed as something was given to somebody last.
    given: u64,
    /// What it showed as something was given to somebody, time was told, or what was listened was forgotten
    /// last.
    since: u64,
    /// For how long was listened since then.
    untold: u64,
    /// How long it went on in all, but for what was longer than `LONGEST` at once.
    awake: u64,
    ghost past: { since + untold ≤ read },
    ghost sent: { given ≤ since },
}

impl Hours {
    /// The clock shows 0.
    pub fn new() -> Hours {
        Hours {
            read: 0,
            given: 0,
            since: 0,
            untold: 0,
            awake: 0,
        }
    }

    /// What the clock showed last.
    pub fn read(&self) -> u64
        ensures { result ≡ self.now.read }
    {
        self.read
    }

    /// How long the clock went on in all, but for what was longer than half a second at once.
    pub fn awake(&self) -> u64
        ensures { result ≡ self.now.awake }
    {
        self.awake
    }

    /// For how long was listened since time was told, something was given, or what was listened was
    /// forgotten.
    pub fn untold(&self) -> u64
        ensures { result ≡ self.now.untold }
    {
        self.untold
    }

    /// How much counts of a step at whose end the clock shows so much.
    fn step(&self, now: u64) -> u64
        ensures { result ≤ now - self.now.read }
    {
        now.saturating_sub(self.read).min(LONGEST)
    }

    /// Something is given to somebody, as the clock shows so much. What went by before isn't told behind it.
    pub fn give(&mut self, now: u64)
        ensures given { self.new.given ≡ self.new.read }
        ensures past { self.old.read ≤ self.new.read }
    {
        let awake = self.awake.saturating_add(self.step(now));
        let read = self.read.max(now);
        *self = Hours {
            read,
            given: read,
            since: read,
            untold: 0,
            awake,
        };
    }

    /// Somebody listened until the clock shows so much.
    pub fn listen(&mut self, now: u64)
        ensures since { self.new.since ≡ self.old.since }
        ensures given { self.new.given ≡ self.old.given }
    {
        let step = self.step(now);
        self.read = self.read.max(now);
        self.untold = self.untold.saturating_add(step);
        self.awake = self.awake.saturating_add(step);
    }

    /// What was listened until now is told to nobody any more.
    pub fn forget(&mut self)
        ensures since { self.new.since ≡ self.old.read }
        ensures given { self.new.given ≡ self.old.given }
    {
        self.since = self.read;
        self.untold = 0;
    }

    /// How much time a tick tells.
    pub fn tell(&mut self) -> u64
        ensures past { self.old.since + result ≤ self.new.read }
        ensures given { self.new.given ≡ self.old.given }
        ensures most { result ≤ LONGEST }
    {
        let told = self.untold.min(LONGEST);
        self.since = self.read;
        self.untold = 0;
        told
    }
}
