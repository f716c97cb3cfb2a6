ghost use Rattle.std.specs.Prelude.{◌≡◌, true, false};
ghost use Rattle.copy_lines.specs.Beginnings.{IsBeginning};

/// What lies there when a run begins.
#[derive(Clone, Copy, Debug)]
pub struct Found {
    /// The highest number of a copy, or 0.
    pub highest: u32,
    /// Whether there is the copy that is asked for; none is asked for by 0.
    pub has_copy: bool,
    /// Whether there is a file that can be copied.
    pub has_file: bool,
}

/// With which copy a run begins. Its own copies have the numbers behind that one.
#[derive(Clone, Copy, Debug)]
pub enum Beginning {
    /// With the one that was asked for, or without any where none was.
    AsAsked,
    /// The copy that was asked for is copied first to this number, behind all others.
    Behind(u32),
    /// The copy with this number is made of the file as it stands.
    FromFile(u32),
    /// Neither the copy nor the file is there, so it begins without any.
    Anew,
}

/// Where the copy that is asked for is there.
fn begin_with_copy(from: u32, found: Found) -> Beginning
    requires { found.has_copy ≡ true }
    ensures { IsBeginning from found result }
{
    if found.highest <= from {
        return Beginning::AsAsked;
    }
    match found.highest.checked_add(1) {
        Some(number) => Beginning::Behind(number),
        None => Beginning::AsAsked,
    }
}

/// Where it isn't, and one can be made of the file.
fn begin_with_file(from: u32, found: Found) -> Beginning
    requires copy { found.has_copy ≡ false }
    requires file { found.has_file ≡ true }
    requires some { ¬ ((from ≡ 0) × (found.highest ≡ 0)) }
    ensures { IsBeginning from found result }
{
    if found.highest < from {
        return Beginning::FromFile(from);
    }
    match found.highest.checked_add(1) {
        Some(number) => Beginning::FromFile(number),
        None => Beginning::AsAsked,
    }
}

/// With which copy a run begins that was asked to begin with this one, or with none at 0.
pub fn begin(from: u32, found: Found) -> Beginning
    ensures { IsBeginning from found result }
{
    if found.has_copy {
        return begin_with_copy(from, found);
    }
    if from == 0 && found.highest == 0 {
        return Beginning::AsAsked;
    }
    if found.has_file {
        begin_with_file(from, found)
    } else if from == 0 {
        Beginning::AsAsked
    } else {
        Beginning::Anew
    }
}
