use kept_books::read_file_name;
use owned_lists::{NoMemory, Octets};
use std::alloc::Global;

/// What a file of the shelf says by its name.
#[derive(Drop)]
pub struct FileName {
    pub number: u64,
    pub session: Octets,
}

/// The number that a whole store was kept under by an earlier release, with the time of its login behind
/// a point.
fn old_number(name: &str) -> Option<u64> {
    let (digits, time) = name.split_once(".")?;
    if digits.len() != 8 || time.is_empty() {
        return None;
    }
    if !time
        .bytes()
        .all(|byte| byte.is_ascii_digit() || b"TZ:-".contains(&byte))
    {
        return None;
    }
    digits.parse::<u64>().ok()
}

/// What the name of a whole store says.
fn read_old_name(alloc: Global, name: &str) -> Result<Option<FileName>, NoMemory> {
    match old_number(name) {
        Some(number) => Ok(Some(FileName {
            number,
            session: Octets::from_slice(alloc, b"default")?,
        })),
        None => Ok(None),
    }
}

/// What the name says. A whole store that an earlier release kept counts for `default`.
pub fn read_name(alloc: Global, name: &str) -> Result<Option<FileName>, NoMemory> {
    match read_file_name(alloc, name.as_bytes())? {
        Some((number, session)) => Ok(Some(FileName { number, session })),
        None => read_old_name(alloc, name),
    }
}

/// Whether it is what a login left that was killed before a file had its name.
pub fn is_left_over(name: &str) -> bool {
    name.contains(".new")
}
