/// How far an Error reaches (ICE, chapter 4: Error).
#[derive(Clone, Copy, Debug, PartialEq, Eq)]
pub enum Severity {
    CanContinue,
    FatalToProtocol,
    FatalToConnection,
}
