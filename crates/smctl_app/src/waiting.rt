ghost use Rattle.std.specs.Prelude.{◌≡◌, ◌||◌, false};
ghost use Rattle.smctl_app.specs.Talking.{is_leaving, is_over};

use crate::client_line::ClientLine;
use std::alloc::{AllocError, Global};

/// What the session is at.
#[derive(Clone, Copy, Debug, PartialEq, Eq)]
pub enum Course {
    Idle,
    Saving,
    /// A logout runs or is agreed.
    Leaving,
}

/// Reads what the session is at, which the answer to `status` says last.
pub fn read_course(line: &str) -> Option<Course> {
    let (_, word) = line.rsplit_once(", ")?;
    if word == "idle" {
        Some(Course::Idle)
    } else if word == "saving" {
        Some(Course::Saving)
    } else if word == "shutdown" || word == "ending" {
        Some(Course::Leaving)
    } else {
        None
    }
}

/// What a look has seen of a logout.
#[derive(Clone, Copy, Debug, PartialEq, Eq)]
pub struct Glance {
    /// Somebody may have to be waited for.
    pub is_awaited: bool,
    /// What the session was at, behind that.
    pub course: Course,
}

impl Glance {
    /// What is seen where these are there, and the session is at that.
    pub fn of(clients: &[ClientLine<'_>], course: Course) -> Glance
        ensures { result.course ≡ course }
    {
        Glance {
            is_awaited: clients.iter().any(|client| client.may_be_awaited()),
            course,
        }
    }
}

/// How far a logout is that was ordered.
#[derive(Clone, Copy, Debug)]
pub struct Logout {
    has_begun: bool,
    is_cancelled: bool,
}

impl Logout {
    /// Nobody has looked yet.
    pub fn new() -> Logout
        ensures begun { result.has_begun ≡ false }
        ensures cancelled { result.is_cancelled ≡ false }
    {
        Logout {
            has_begun: false,
            is_cancelled: false,
        }
    }

    /// Notes what was seen. A logout waits for its begin where somebody still owes an answer, or where
    /// another save runs.
    pub fn look(&mut self, glance: Glance)
        ensures begun { self.new.has_begun ≡ (self.old.has_begun || is_leaving glance.course) }
        ensures cancelled { self.new.is_cancelled
            ≡ is_over self.old.has_begun glance.is_awaited glance.course }
    {
        self.is_cancelled = match glance.course {
            Course::Leaving => false,
            Course::Saving => self.has_begun,
            Course::Idle => self.has_begun || !glance.is_awaited,
        };
        self.has_begun = self.has_begun || glance.course == Course::Leaving;
    }

    /// Whether it was cancelled, or all have left before they agreed: it runs no more, and doesn't wait
    /// for its begin.
    pub fn is_cancelled(&self) -> bool
        ensures { result ≡ self.now.is_cancelled }
    {
        self.is_cancelled
    }
}

/// Adds who it is, and what of it is waited for.
fn put_owing(text: &mut String, client: &ClientLine<'_>) -> Result<(), AllocError> {
    if client.program == "-" {
        text.push_str("connection ")?;
        text.push_str(client.conn)?;
    } else {
        text.push_str(client.program)?;
    }
    text.push_str(" (")?;
    text.push_str(client.owes())?;
    text.push_str(")")
}

/// Who is waited for, on one line.
pub fn waited_for(alloc: Global, clients: &[ClientLine<'_>]) -> Result<String, AllocError> {
    let mut text = "waiting for ".to_string(alloc)?;
    let mut is_first = true;
    for client in clients {
        if client.holds {
            if !is_first {
                text.push_str(", ")?;
            }
            put_owing(&mut text, client)?;
            is_first = false;
        }
    }
    if is_first {
        text.push_str("the end of the session")?;
    }
    Ok(text)
}
