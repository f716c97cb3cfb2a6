use message_text::{put_number, put_plain};
use owned_lists::{NoMemory, Octets};
use std::alloc::Global;

/// Appends a byte of a text as XML has it. A byte that isn't printable ASCII is `\xNN`.
fn put_char(alloc: Global, out: &mut Octets, byte: u8) -> Result<(), NoMemory> {
    if byte == b'&' {
        return out.append(b"&amp;");
    }
    if byte == b'<' {
        return out.append(b"&lt;");
    }
    if byte == b'>' {
        return out.append(b"&gt;");
    }
    if byte == b'"' || byte == b'\\' || byte == b'\n' {
        return out.append(&[byte]);
    }
    put_plain(alloc, out, &[byte])
}

/// Appends a text as XML has it, outside of a tag.
pub fn put_text(alloc: Global, out: &mut Octets, text: &[u8]) -> Result<(), NoMemory> {
    for byte in text {
        put_char(alloc, out, *byte)?;
    }
    Ok(())
}

/// Appends pieces of a tag, between each two of which a number stands.
pub fn put_tag(
    alloc: Global,
    out: &mut Octets,
    pieces: &[&str],
    numbers: &[u64],
) -> Result<(), NoMemory> {
    for (piece, number) in pieces.iter().zip(numbers.iter()) {
        out.append(piece.as_bytes())?;
        put_number(alloc, out, *number)?;
    }
    Ok(())
}

/// Appends `<text>` of a class at a place.
pub fn put_label(
    alloc: Global,
    out: &mut Octets,
    class: &str,
    x: u64,
    y: u64,
    text: &[u8],
) -> Result<(), NoMemory> {
    out.append(b"<text class=\"")?;
    out.append(class.as_bytes())?;
    put_tag(alloc, out, &["\" x=\"", "\" y=\""], &[x, y])?;
    out.append(b"\">")?;
    put_text(alloc, out, text)?;
    out.append(b"</text>\n")
}

/// Appends `<line>` of a class between two places.
pub fn put_stroke(
    alloc: Global,
    out: &mut Octets,
    class: &str,
    from: (u64, u64),
    to: (u64, u64),
) -> Result<(), NoMemory> {
    out.append(b"<line class=\"")?;
    out.append(class.as_bytes())?;
    put_tag(
        alloc,
        out,
        &["\" x1=\"", "\" y1=\"", "\" x2=\"", "\" y2=\""],
        &[from.0, from.1, to.0, to.1],
    )?;
    out.append(b"\"/>\n")
}

/// Appends `<rect>` of a class, by its corner and its size.
pub fn put_box(
    alloc: Global,
    out: &mut Octets,
    class: &str,
    corner: (u64, u64),
    size: (u64, u64),
) -> Result<(), NoMemory> {
    out.append(b"<rect class=\"")?;
    out.append(class.as_bytes())?;
    put_tag(
        alloc,
        out,
        &["\" x=\"", "\" y=\"", "\" width=\"", "\" height=\""],
        &[corner.0, corner.1, size.0, size.1],
    )?;
    out.append(b"\"/>\n")
}

/// Appends `<title>` with a text.
pub fn put_title(alloc: Global, out: &mut Octets, text: &[u8]) -> Result<(), NoMemory> {
    out.append(b"<title>")?;
    put_text(alloc, out, text)?;
    out.append(b"</title>\n")
}
