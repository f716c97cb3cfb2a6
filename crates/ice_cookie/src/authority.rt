use owned_lists::{ListOf, Octets};

/// What a client needs to know to show at one address that it may join.
#[derive(Drop)]
pub struct AuthorityEntry {
    /// The protocol that asks, such as `ICE` or `XSMP`.
    pub protocol: Octets,
    /// What that protocol adds; of ICE and XSMP nothing.
    pub details: Octets,
    /// The address at which the entry is good, such as `local/HOST:PATH`.
    pub network: Octets,
    /// The authentication protocol, such as `MIT-MAGIC-COOKIE-1`.
    pub name: Octets,
    /// The data of the authentication, such as the 16 bytes of a cookie. It is secret.
    pub proof: Octets,
}

/// The entries of an authority file, in its order.
pub type AuthorityList = ListOf<AuthorityEntry>;
