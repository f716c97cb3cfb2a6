use ice_cookie::Cookie;
use owned_lists::Octets;

/// Who a session manager is: the cookie that its clients must show, and the name of its host, of at
/// most 255 bytes. A rehearsal has a cookie of its own, and no host.
#[derive(Debug, Drop)]
pub struct Identity {
    pub cookie: Cookie,
    pub host: Octets,
}
