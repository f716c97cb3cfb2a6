ghost use Rattle.std.specs.Prelude.{◌≡◌, ◌≢◌, ◌↔◌, ◌++◌, ℕ, IsTrue, IfOk, OnOk, Err};
ghost use Rattle.ice_cookie.specs.Spelling.{field_bytes, IsField, entry_bytes, HasSpelling, list_bytes, HaveSpelling};

use crate::{AuthorityEntry, AuthorityList, AuthorityRefusal};
use ice_values::{Endian, put_bytes, put_card16};
use owned_lists::{NoMemory, Octets};
use std::alloc::Global;

/// The most bytes that a field may have.
const FIELD_LIMIT: usize = 65535;

fn is_field(field: &Octets) -> bool
    ensures { IsTrue result ↔ IsField field.now }
{
    field.len() <= FIELD_LIMIT
}

fn has_spelling(entry: &AuthorityEntry) -> bool
    ensures { IsTrue result ↔ HasSpelling entry.now }
{
    is_field(&entry.protocol)
        && is_field(&entry.details)
        && is_field(&entry.network)
        && is_field(&entry.name)
        && is_field(&entry.proof)
}

fn have_spelling(entries: &[AuthorityEntry]) -> bool
    ensures { IsTrue result ↔ HaveSpelling entries.now }
{
    for entry in entries {
        if !has_spelling(entry) {
            return false;
        }
    }
    true
}

fn put_field(field: &Octets, out: &mut Octets) -> Result<(), NoMemory>
    requires { IsField field.now }
    ensures { OnOk result (out.new ≡ out.old ++ field_bytes field.now) }
{
    put_card16(Endian::Msb, field.len() as u16, out)?;
    put_bytes(field.as_slice(), out)
}

fn put_entry(entry: &AuthorityEntry, out: &mut Octets) -> Result<(), NoMemory>
    requires { HasSpelling entry.now }
    ensures { OnOk result (out.new ≡ out.old ++ entry_bytes entry.now) }
{
    put_field(&entry.protocol, out)?;
    put_field(&entry.details, out)?;
    put_field(&entry.network, out)?;
    put_field(&entry.name, out)?;
    put_field(&entry.proof, out)
}

fn put_entries(entries: &[AuthorityEntry], out: &mut Octets) -> Result<(), NoMemory>
    requires { HaveSpelling entries.now }
    ensures { OnOk result (out.new ≡ out.old ++ list_bytes entries.now) }
{
    for entry in entries {
        put_entry(entry, out)?;
    }
    Ok(())
}

/// The bytes of an authority file with these entries, one after the other. Each is its five fields
/// in their order, each field a CARD16 that says how many bytes it has, most significant byte
/// first, and these bytes. TooLong where a field has more than 65,535 bytes.
pub fn authority_bytes(alloc: Global, entries: &AuthorityList) -> Result<Octets, AuthorityRefusal>
    ensures bytes { IfOk result (λ octets. octets ≡ list_bytes entries.now) }
    ensures too_long { (result ≡ Err AuthorityRefusal.TooLong) ↔ (¬ (HaveSpelling entries.now)) }
    ensures not_short { (at : ℕ) → result ≢ Err (AuthorityRefusal.Short at) }
{
    let entries = entries.as_slice();
    if !have_spelling(entries) {
        return Err(AuthorityRefusal::TooLong);
    }
    let mut out = Octets::new(alloc);
    put_entries(entries, &mut out)?;
    Ok(out)
}
