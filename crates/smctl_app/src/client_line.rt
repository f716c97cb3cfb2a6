/// A client, as a line of the manager's answer tells it. What isn't known is a hyphen.
#[derive(Debug, Drop)]
pub struct ClientLine<'a> {
    /// The number of its connection.
    pub conn: &'a str,
    /// A round or a logout waits for it.
    pub holds: bool,
    pub stage: &'a str,
    /// It is in a logout.
    pub logout: bool,
    /// For how many milliseconds it has been silent.
    pub silent: u64,
    pub asked: &'a str,
    pub answered: &'a str,
    pub id: &'a str,
    pub program: &'a str,
}

/// What stands behind this name in a line of words with a blank between each two.
fn field<'a>(line: &'a str, name: &str) -> Option<&'a str> {
    for word in line.split(' ') {
        if let Some(value) = word.strip_prefix(name) {
            return Some(value);
        }
    }
    None
}

/// Reads the line of a client, without its newline.
pub fn read_client_line(line: &str) -> Option<ClientLine<'_>> {
    Some(ClientLine {
        conn: field(line, "conn=")?,
        holds: field(line, "holds=")? == "yes",
        stage: field(line, "stage=")?,
        logout: field(line, "logout=")? == "yes",
        silent: field(line, "silent=")?.parse::<u64>().ok()?,
        asked: field(line, "asked=")?,
        answered: field(line, "answered=")?,
        id: field(line, "id=")?,
        program: field(line, "program=")?,
    })
}

/// How many lines of clients follow this one.
pub fn read_count(line: &str) -> Option<u64> {
    line.strip_prefix("clients ")?.parse::<u64>().ok()
}

impl ClientLine<'_> {
    /// Whether a round may have to wait for it. Of one that can't be read nobody knows.
    pub fn may_be_awaited(&self) -> bool {
        self.holds || self.is_unreadable()
    }

    /// Whether it surely is in a logout.
    pub fn leaves(&self) -> bool {
        self.logout && !self.is_unreadable()
    }

    /// What is said of one that can't be read was so before.
    fn is_unreadable(&self) -> bool {
        self.stage == "unreadable"
    }

    /// What of it is waited for; nothing where nobody waits.
    pub fn owes(&self) -> &'static str {
        match self.stage {
            "saving" => "its save",
            "interacting" => "the user",
            "dying" => "its end",
            _ => "",
        }
    }
}
