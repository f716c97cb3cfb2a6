ghost use Rattle.std.specs.Prelude.{◌≡◌, IfOk};
ghost use Rattle.worked_values.specs.Bytes.{word_bytes, list_bytes, property_bytes, properties_bytes};

use ice_values::{
    Array8List, Endian, Property, PropertyList, write_array8, write_array8_list, write_property,
    write_property_list,
};
use owned_lists::{NoMemory, Octets};
use std::alloc::Global;

/// A word, little-endian.
pub fn spelled_word(alloc: Global) -> Result<Octets, NoMemory>
    ensures { IfOk result (λ bytes. bytes ≡ word_bytes) }
{
    let word = Octets::from_slice(alloc, b"hi")?;
    let mut out = Octets::new(alloc);
    write_array8(Endian::Lsb, &word, &mut out)?;
    Ok(out)
}

/// A list of a word and an empty one, big-endian.
pub fn spelled_list(alloc: Global) -> Result<Octets, NoMemory>
    ensures { IfOk result (λ bytes. bytes ≡ list_bytes) }
{
    let mut words = Array8List::new(alloc);
    words.push(Octets::from_slice(alloc, b"hi")?)?;
    words.push(Octets::new(alloc))?;
    let mut out = Octets::new(alloc);
    write_array8_list(Endian::Msb, &words, &mut out)?;
    Ok(out)
}

/// A property of one value, little-endian.
pub fn spelled_property(alloc: Global) -> Result<Octets, NoMemory>
    ensures { IfOk result (λ bytes. bytes ≡ property_bytes) }
{
    let mut values = Array8List::new(alloc);
    values.push(Octets::from_slice(alloc, b"hi")?)?;
    let property = Property::from_slices(alloc, b"P", b"ARRAY8", values)?;
    let mut out = Octets::new(alloc);
    write_property(Endian::Lsb, &property, &mut out)?;
    Ok(out)
}

/// A list of one property, which has no value, big-endian.
pub fn spelled_properties(alloc: Global) -> Result<Octets, NoMemory>
    ensures { IfOk result (λ bytes. bytes ≡ properties_bytes) }
{
    let values = Array8List::new(alloc);
    let mut properties = PropertyList::new(alloc);
    properties.push(Property::from_slices(alloc, b"P", b"CARD8", values)?)?;
    let mut out = Octets::new(alloc);
    write_property_list(Endian::Msb, &properties, &mut out)?;
    Ok(out)
}
