ghost use Rattle.std.specs.Prelude.{◌≡◌, ◌≤◌, ◌*◌, ◌+◌, ◌++◌, length, drop, IfOk, OnOk};
ghost use Rattle.display_messages.specs.Places.{longs_in};
ghost use Rattle.display_messages.specs.Replies.{kind_of, attributes_in, property_in, tree_in, process_in, extension_in, said, reply_of};

use crate::places::{read_long, read_short};
use crate::{Attributes, Property, Reply, ReplyKind, Request, WindowList};
use owned_lists::{NoMemory, Octets};
use std::alloc::Global;

/// Which reply a request has; None where it has none.
pub fn reply_kind(request: &Request) -> Option<ReplyKind>
    ensures { result ≡ kind_of request.now }
{
    match request {
        Request::InternAtom { .. } => Some(ReplyKind::Atom),
        Request::GetProperty { .. } => Some(ReplyKind::Property),
        Request::ChangeWindowAttributes { .. } => None,
        Request::GetWindowAttributes { .. } => Some(ReplyKind::Attributes),
        Request::QueryTree { .. } => Some(ReplyKind::Tree),
        Request::SendEvent { .. } => None,
        Request::GetInputFocus => Some(ReplyKind::Mark),
        Request::QueryExtension { .. } => Some(ReplyKind::Extension),
        Request::QueryResourceVersion { .. } => Some(ReplyKind::ResourceVersion),
        Request::QueryClientIds { .. } => Some(ReplyKind::Process),
    }
}

fn read_property(alloc: Global, bytes: &[u8]) -> Result<Reply, NoMemory>
    requires { 32 ≤ length bytes.now }
    ensures { IfOk result (λ reply. reply ≡ property_in bytes.now) }
{
    let kind = read_long(bytes, 8);
    if kind == 0 {
        return Ok(Reply::NoProperty);
    }
    let format = bytes[1];
    let size = read_long(bytes, 16) as usize * (format / 8) as usize;
    if bytes.len() < 32 + size {
        return Ok(Reply::NotUnderstood);
    }
    let (_, rest) = bytes.split_at(32);
    let (value, _) = rest.split_at(size);
    Ok(Reply::Property(Property {
        format,
        kind,
        after: read_long(bytes, 12),
        value: Octets::from_slice(alloc, value)?,
    }))
}

fn read_attributes(bytes: &[u8]) -> Reply
    requires { 32 ≤ length bytes.now }
    ensures { result ≡ attributes_in bytes.now }
{
    if bytes.len() < 36 {
        return Reply::NotUnderstood;
    }
    Reply::Attributes(Attributes {
        input_output: read_short(bytes, 12) == 1,
        mapped: bytes[26] > 0,
        override_redirect: bytes[27] > 0,
        all_events: read_long(bytes, 32),
    })
}

/// So many numbers of four bytes, one after the other.
pub fn read_longs(alloc: Global, count: usize, bytes: &[u8]) -> Result<WindowList, NoMemory>
    requires { 4 * count ≤ length bytes.now }
    ensures { IfOk result (λ numbers. numbers ≡ longs_in count bytes.now) }
{
    let mut numbers = WindowList::new(alloc);
    let mut rest = bytes;
    for _taken in 0..count {
        numbers.push(read_long(rest, 0))?;
        let (_, behind) = rest.split_at(4);
        rest = behind;
    }
    Ok(numbers)
}

fn read_tree(alloc: Global, bytes: &[u8]) -> Result<Reply, NoMemory>
    requires { 32 ≤ length bytes.now }
    ensures { IfOk result (λ reply. reply ≡ tree_in bytes.now) }
{
    let count = read_short(bytes, 16) as usize;
    let (_, rest) = bytes.split_at(32);
    if rest.len() < 4 * count {
        return Ok(Reply::NotUnderstood);
    }
    Ok(Reply::Tree {
        parent: read_long(bytes, 12),
        children: read_longs(alloc, count, rest)?,
    })
}

fn read_process(bytes: &[u8]) -> Reply
    requires { 32 ≤ length bytes.now }
    ensures { result ≡ process_in bytes.now }
{
    if read_long(bytes, 8) == 0 {
        return Reply::Process(None);
    }
    if bytes.len() < 48 {
        return Reply::NotUnderstood;
    }
    if read_long(bytes, 36) == 2 && read_long(bytes, 40) == 4 {
        Reply::Process(Some(read_long(bytes, 44)))
    } else {
        Reply::NotUnderstood
    }
}

fn read_extension(bytes: &[u8]) -> Option<u8>
    requires { 32 ≤ length bytes.now }
    ensures { result ≡ extension_in bytes.now }
{
    if bytes[8] == 0 { None } else { Some(bytes[9]) }
}

/// What a reply says to a request of this kind; any bytes are read.
pub fn read_reply(alloc: Global, kind: ReplyKind, bytes: &[u8]) -> Result<Reply, NoMemory>
    ensures { IfOk result (λ reply. reply ≡ reply_of kind bytes.now) }
{
    if bytes.len() < 32 {
        return Ok(Reply::NotUnderstood);
    }
    match kind {
        ReplyKind::Atom => Ok(Reply::Atom(read_long(bytes, 8))),
        ReplyKind::Property => read_property(alloc, bytes),
        ReplyKind::Attributes => Ok(read_attributes(bytes)),
        ReplyKind::Tree => read_tree(alloc, bytes),
        ReplyKind::Mark => Ok(Reply::Mark),
        ReplyKind::Extension => Ok(Reply::Extension(read_extension(bytes))),
        ReplyKind::ResourceVersion => Ok(Reply::ResourceVersion {
            major: read_short(bytes, 8),
            minor: read_short(bytes, 10),
        }),
        ReplyKind::Process => Ok(read_process(bytes)),
    }
}
