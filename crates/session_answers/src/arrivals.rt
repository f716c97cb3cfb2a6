use sm_world::Conn;
use xsmp_messages::XsmpMessage;

/// A message of a client that arrived, where it lies. It can be copied.
#[derive(Clone, Copy, Debug)]
pub struct ArrivalView<'a> {
    pub conn: Conn,
    pub message: &'a XsmpMessage,
    /// Its number among all that came on the connection, from 1 on.
    pub sequence: u32,
    /// The whole frame.
    pub frame: &'a [u8],
}
