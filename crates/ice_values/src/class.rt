ghost use Rattle.std.specs.Prelude.{◌≡◌, ◌==◌, IfSome, Some};
ghost use Rattle.std.specs.List.{find};
ghost use Rattle.ice_values.specs.Classes.{class_number};
ghost use Rattle.ice_values.specs.declared.class.ErrorClass.{ErrorClass as AnyClass};

/// Why a message is refused, as an Error says it (ICE, chapter 7: Error Class Encoding). The first
/// four are those of any protocol over ICE, and XSMP has no others; the rest are ICE's own.
#[derive(Clone, Copy, Debug, PartialEq, Eq)]
pub enum ErrorClass {
    /// No message of the protocol has this minor opcode.
    BadMinor,
    /// The message has no place in this state.
    BadState,
    /// The bytes can't be cut into the message's parts.
    BadLength,
    /// Some bytes of the message have no meaning.
    BadValue,
    /// No protocol has this major opcode.
    BadMajor,
    /// None of the names of authentication protocols is known.
    NoAuthentication,
    /// None of the versions is known.
    NoVersion,
    /// The party can't be set up for a reason of its own.
    SetupFailed,
    /// The authentication isn't what was asked for.
    AuthenticationRejected,
    /// The authentication came to no end.
    AuthenticationFailed,
    /// The protocol is set up already.
    ProtocolDuplicate,
    /// The major opcode is taken already.
    MajorOpcodeDuplicate,
    /// No protocol has this name.
    UnknownProtocol,
}

const ALL: [ErrorClass; 13] = [
    ErrorClass::BadMinor,
    ErrorClass::BadState,
    ErrorClass::BadLength,
    ErrorClass::BadValue,
    ErrorClass::BadMajor,
    ErrorClass::NoAuthentication,
    ErrorClass::NoVersion,
    ErrorClass::SetupFailed,
    ErrorClass::AuthenticationRejected,
    ErrorClass::AuthenticationFailed,
    ErrorClass::ProtocolDuplicate,
    ErrorClass::MajorOpcodeDuplicate,
    ErrorClass::UnknownProtocol,
];

/// The first of some classes that has this number.
fn first_of(classes: &[ErrorClass], number: u16) -> Option<ErrorClass>
    ensures { result ≡ find (λ class. class_number class == number) classes.now }
{
    classes
        .iter()
        .copied()
        .find(|class| class.number() == number)
}

impl ErrorClass {
    /// The number that stands for it in an Error.
    pub fn number(self) -> u16
        ensures { result ≡ class_number self }
    {
        match self {
            ErrorClass::BadMinor => 0x8000,
            ErrorClass::BadState => 0x8001,
            ErrorClass::BadLength => 0x8002,
            ErrorClass::BadValue => 0x8003,
            ErrorClass::BadMajor => 0,
            ErrorClass::NoAuthentication => 1,
            ErrorClass::NoVersion => 2,
            ErrorClass::SetupFailed => 3,
            ErrorClass::AuthenticationRejected => 4,
            ErrorClass::AuthenticationFailed => 5,
            ErrorClass::ProtocolDuplicate => 6,
            ErrorClass::MajorOpcodeDuplicate => 7,
            ErrorClass::UnknownProtocol => 8,
        }
    }

    /// The class that a number stands for.
    pub fn of_number(number: u16) -> Option<ErrorClass>
        ensures named { IfSome result (λ class. class_number class ≡ number) }
        ensures again { (class : AnyClass) → class_number class ≡ number → result ≡ Some class }
    {
        first_of(&ALL, number)
    }
}
