ghost use Rattle.std.specs.Prelude.{◌≡◌, ◌↔◌, length, IsTrue};
ghost use Rattle.ice_cookie.specs.Cookies.{shows};

use std::fmt;

/// The secret of a session: the data of the authentication protocol `MIT-MAGIC-COOKIE-1`.
#[derive(Clone, Copy, PartialEq, Eq)]
pub struct Cookie(pub [u8; 16]);

impl Cookie {
    /// Whether the data of an AuthenticationReply are exactly these 16 bytes.
    pub fn matches(&self, proof: &[u8]) -> bool
        ensures equal { IsTrue result ↔ (proof.now ≡ self.now.0) }
        ensures test { result ≡ shows self.now proof.now }
    {
        proof.len() == self.0.len() && differing(&self.0, proof) == 0
    }
}

/// In how many places the bytes differ. Each of them is looked at, whatever they are, so that the time
/// taken doesn't tell where the first difference is.
fn differing(own: &[u8], shown: &[u8]) -> usize
    requires { length own.now ≡ length shown.now }
    ensures { (result ≡ 0) ↔ (shown.now ≡ own.now) }
{
    let mut count = 0;
    for at in 0..own.len() {
        count += usize::from(own[at] != shown[at]);
    }
    count
}

/// The bytes are secret, so they aren't shown.
impl fmt::Debug for Cookie {
    fn fmt<W: fmt::Write>(&self, f: &mut fmt::Formatter<W>) -> fmt::Result {
        f.write_str("Cookie(..)")
    }
}
