ghost use Rattle.std.specs.Prelude.{◌≡◌, ◌<◌, ℕ, Option, length};
ghost use Rattle.ice_values.specs.Fields.{bool_number, order_number, severity_number};
ghost use Rattle.ice_values.specs.Frames.{means_at, bool_meaning, order_meaning, severity_meaning};
ghost use Rattle.ice_values.specs.Saves.{kind_number, style_number, dialog_number, kind_meaning, style_meaning, dialog_meaning};

use crate::{DecodeRefusal, Dialog, Endian, SaveKind, SaveStyle, Severity};

/// A value for which one byte stands.
pub trait Enumerated: Copy {
    ghost number_of: { Self → ℕ };

    ghost meaning: { ℕ → Option Self };

    /// The byte that stands for it.
    fn number(self) -> u8
        ensures { result ≡ number_of self };

    /// What a byte stands for. None where it has no meaning.
    fn of_number(number: u8) -> Option<Self>
        ensures { result ≡ meaning number };
}

/// The value for which the byte at a place stands.
#[tactic(auto, unfolding(crate::specs::Frames::means_at))]
pub fn value_at<T: Enumerated>(frame: &[u8], at: u32) -> Result<T, DecodeRefusal>
    requires { at < length frame.now }
    ensures { result ≡ means_at T.meaning frame.now at }
{
    match T::of_number(frame[at as usize]) {
        Some(value) => Ok(value),
        None => Err(DecodeRefusal::BadValue { at, len: 1 }),
    }
}

impl Enumerated for bool {
    ghost number_of = { bool_number };

    ghost meaning = { bool_meaning };

    fn number(self) -> u8 {
        if self { 1 } else { 0 }
    }

    fn of_number(number: u8) -> Option<bool> {
        match number {
            0 => Some(false),
            1 => Some(true),
            _ => None,
        }
    }
}

impl Enumerated for Endian {
    ghost number_of = { order_number };

    ghost meaning = { order_meaning };

    fn number(self) -> u8 {
        match self {
            Endian::Lsb => 0,
            Endian::Msb => 1,
        }
    }

    fn of_number(number: u8) -> Option<Endian> {
        match number {
            0 => Some(Endian::Lsb),
            1 => Some(Endian::Msb),
            _ => None,
        }
    }
}

impl Enumerated for Severity {
    ghost number_of = { severity_number };

    ghost meaning = { severity_meaning };

    fn number(self) -> u8 {
        match self {
            Severity::CanContinue => 0,
            Severity::FatalToProtocol => 1,
            Severity::FatalToConnection => 2,
        }
    }

    fn of_number(number: u8) -> Option<Severity> {
        match number {
            0 => Some(Severity::CanContinue),
            1 => Some(Severity::FatalToProtocol),
            2 => Some(Severity::FatalToConnection),
            _ => None,
        }
    }
}

impl Enumerated for SaveKind {
    ghost number_of = { kind_number };

    ghost meaning = { kind_meaning };

    fn number(self) -> u8 {
        match self {
            SaveKind::Global => 0,
            SaveKind::Local => 1,
            SaveKind::Both => 2,
        }
    }

    fn of_number(number: u8) -> Option<SaveKind> {
        match number {
            0 => Some(SaveKind::Global),
            1 => Some(SaveKind::Local),
            2 => Some(SaveKind::Both),
            _ => None,
        }
    }
}

impl Enumerated for SaveStyle {
    ghost number_of = { style_number };

    ghost meaning = { style_meaning };

    fn number(self) -> u8 {
        match self {
            SaveStyle::Nothing => 0,
            SaveStyle::Errors => 1,
            SaveStyle::Any => 2,
        }
    }

    fn of_number(number: u8) -> Option<SaveStyle> {
        match number {
            0 => Some(SaveStyle::Nothing),
            1 => Some(SaveStyle::Errors),
            2 => Some(SaveStyle::Any),
            _ => None,
        }
    }
}

impl Enumerated for Dialog {
    ghost number_of = { dialog_number };

    ghost meaning = { dialog_meaning };

    fn number(self) -> u8 {
        match self {
            Dialog::Error => 0,
            Dialog::Normal => 1,
        }
    }

    fn of_number(number: u8) -> Option<Dialog> {
        match number {
            0 => Some(Dialog::Error),
            1 => Some(Dialog::Normal),
            _ => None,
        }
    }
}
