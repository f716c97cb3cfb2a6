ghost use Rattle.std.specs.Prelude.{◌≡◌};
ghost use Rattle.session_model.specs.Waits as of;

use ice_values::{SaveKind, SaveStyle};
use round_agreement::Wanted;
use session_model::{Owner, Wait};
use sm_world::Conn;

/// The round of a client that has just registered anew.
pub(crate) fn first_save(conn: Conn) -> Wait
    ensures { result ≡ of.first_save conn }
{
    Wait {
        wanted: Wanted {
            only: Some(conn),
            from: None,
            kind: SaveKind::Local,
            shutdown: false,
            style: SaveStyle::Nothing,
            fast: false,
        },
        owner: Owner::Newcomer,
    }
}

/// The operator's checkpoint.
pub(crate) fn checkpoint_wait() -> Wait
    ensures { result ≡ of.checkpoint_wait }
{
    Wait {
        wanted: Wanted {
            only: None,
            from: None,
            kind: SaveKind::Local,
            shutdown: false,
            style: SaveStyle::Nothing,
            fast: false,
        },
        owner: Owner::Operator,
    }
}

/// The operator's shutdown.
pub(crate) fn shutdown_wait() -> Wait
    ensures { result ≡ of.shutdown_wait }
{
    Wait {
        wanted: Wanted {
            only: None,
            from: None,
            kind: SaveKind::Both,
            shutdown: true,
            style: SaveStyle::Any,
            fast: false,
        },
        owner: Owner::Operator,
    }
}

/// A client's request, for itself alone.
pub(crate) fn lone_wait(conn: Conn, kind: SaveKind, style: SaveStyle, fast: bool) -> Wait
    ensures { result ≡ of.lone_wait conn kind style fast }
{
    Wait {
        wanted: Wanted {
            only: Some(conn),
            from: Some(conn),
            kind,
            shutdown: false,
            style,
            fast,
        },
        owner: Owner::Sender(conn),
    }
}

/// A client's request for all.
pub(crate) fn global_wait(
    conn: Conn,
    kind: SaveKind,
    shutdown: bool,
    style: SaveStyle,
    fast: bool,
) -> Wait
    ensures { result ≡ of.global_wait conn kind shutdown style fast }
{
    Wait {
        wanted: Wanted {
            only: None,
            from: Some(conn),
            kind,
            shutdown,
            style,
            fast,
        },
        owner: Owner::Sender(conn),
    }
}

pub(crate) fn is_operator(owner: Owner) -> bool
    ensures { result ≡ of.is_operator owner }
{
    matches!(owner, Owner::Operator)
}

pub(crate) fn is_sender(conn: Conn, owner: Owner) -> bool
    ensures { result ≡ of.is_sender conn owner }
{
    match owner {
        Owner::Sender(other) => other == conn,
        _ => false,
    }
}

/// Whether a connection, and no other, is named.
pub fn is_only(conn: Conn, only: Option<Conn>) -> bool
    ensures { result ≡ of.is_only conn only }
{
    only.is_some_and(|other| other == conn)
}

/// What a client asked for belongs to nobody from now on.
pub(crate) fn disown(conn: Conn, wait: Wait) -> Wait
    ensures { result ≡ of.disowned conn wait }
{
    if is_sender(conn, wait.owner) {
        Wait {
            wanted: wait.wanted,
            owner: Owner::Nobody,
        }
    } else {
        wait
    }
}
