ghost use Rattle.std.specs.Prelude.{◌≡◌, ◌≢◌, ◌≤◌, ◌++◌, length, drop, IfOk, OnOk, OnErr, Err};
ghost use Rattle.ice_values.specs.Cells.{zeros};
ghost use Rattle.ice_values.specs.Fields.{version as version_cells, IsVersion};
ghost use Rattle.ice_values.specs.Reading.{Answers, ReadsFront, version_at};
ghost use Rattle.ice_values.specs.Writing.{Extends};

use crate::fronts::{cut_card16, take_card16};
use crate::spelled::{Spelled, write_whole};
use crate::writing::put_card16;
use crate::{Endian, ValueRefusal};
use owned_lists::{Duplicate, ListOf, NoMemory, Octets};
use std::alloc::Global;

/// The version of a protocol (ICE, chapter 7: VERSION).
#[derive(Clone, Copy, Debug, PartialEq, Eq)]
pub struct Version {
    pub major: u16,
    pub minor: u16,
}

pub type VersionList = ListOf<Version>;

impl Duplicate for Version {
    fn copy(&self) -> Result<Version, NoMemory> {
        Ok(*self)
    }
}

/// The version at the front, and what follows it.
#[tactic(auto, unfolding(crate::specs::Reading::version_at))]
fn take_version(endian: Endian, bytes: &[u8]) -> Result<(Version, &[u8]), ValueRefusal>
    ensures exact { Answers (λ x. (x.0, x.1.now)) result (version_at endian bytes.now) }
    ensures memory { result ≢ Err ValueRefusal.NoMemory }
{
    let (major, rest) = take_card16(endian, bytes)?;
    let (minor, rest) = take_card16(endian, rest)?;
    Ok((Version { major, minor }, rest))
}

/// A version is spelled by its two numbers.
impl Spelled for Version {
    ghost cells = { version_cells };

    ghost is_spelled = { IsVersion };

    ghost front = { version_at };

    fn take(
        _alloc: Global,
        endian: Endian,
        bytes: &[u8],
    ) -> Result<(Version, &[u8]), ValueRefusal> {
        take_version(endian, bytes)
    }

    #[tactic(auto, unfolding(crate::specs::Reading::version_at))]
    fn pass(endian: Endian, bytes: &[u8]) -> Option<&[u8]> {
        let (_, rest) = cut_card16(endian, bytes)?;
        let (_, rest) = cut_card16(endian, rest)?;
        Some(rest)
    }

    fn put(&self, endian: Endian, out: &mut Octets) -> Result<(), NoMemory> {
        put_card16(endian, self.major, out)?;
        put_card16(endian, self.minor, out)
    }

    fn size(&self) -> Option<usize> {
        let numbers = [self.major, self.minor];
        Some(2 * numbers.len())
    }
}

fn version_front(endian: Endian, bytes: &[u8]) -> Result<(Version, usize), ValueRefusal>
    ensures exact { Answers (λ x. (x.0, drop x.1 bytes.now)) result (version_at endian bytes.now) }
    ensures within { IfOk result (λ x. x.1 ≤ length bytes.now) }
    ensures memory { result ≢ Err ValueRefusal.NoMemory }
{
    let (version, rest) = take_version(endian, bytes)?;
    Ok((version, bytes.len() - rest.len()))
}

/// The version that is spelled at the front, and how many bytes it took. This takes no memory.
pub fn read_version(endian: Endian, bytes: &[u8]) -> Result<(Version, usize), ValueRefusal>
    ensures front { ReadsFront (version_cells endian) IsVersion bytes.now result }
    ensures memory { result ≢ Err ValueRefusal.NoMemory }
{
    version_front(endian, bytes)
}

/// Adds the spelling of a version.
pub fn write_version(endian: Endian, value: &Version, out: &mut Octets) -> Result<(), NoMemory>
    ensures ok { OnOk result (out.new ≡ out.old ++ zeros (version_cells endian value.now)) }
    ensures err { OnErr result (out.new ≡ out.old) }
{
    let _major = value.major;
    let _minor = value.minor;
    write_whole(endian, value, out)
}
