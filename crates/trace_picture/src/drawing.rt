ghost use Rattle.std.specs.Prelude.{IfOk};
ghost use Rattle.trace_picture.specs.Draws.{DrawsWithin};

use crate::lanes::{Arrow, Lane, LaneEnd, Moment, Note, Round, Save};
use crate::sketch::{Sketch, command_words};
use crate::style::put_style;
use crate::svg::{put_box, put_label, put_stroke, put_tag, put_text, put_title};
use checkpoint_records::Book;
use message_text::{put_number, put_plain};
use owned_lists::{NoMemory, Octets};
use std::alloc::Global;
use trace_reading::put_stamp;
use trace_replay::{Direction, LineReading, ShowAnswer, TraceLine, Watch, read_lines};

/// How wide the column of the time is.
const LEFT: u64 = 80;

/// How wide the manager's own lane is.
const OWN: u64 = 240;

/// How wide a client's lane is, and where its line stands in it.
const COLUMN: u64 = 210;

const STEM: u64 = 40;

/// How high the labels above the lanes are, and a row.
const HEAD: u64 = 76;

const ROW: u64 = 22;

/// How many bytes of a text stand in the manager's lane.
const NOTE_LENGTH: usize = 30;

/// How many bytes of a program's name and of its command stand above a lane.
const NAME_LENGTH: usize = 18;

const COMMAND_LENGTH: usize = 30;

/// A text that is cut behind so many bytes.
fn shortened(alloc: Global, text: &[u8], limit: usize) -> Result<Octets, NoMemory> {
    let (front, rest) = text.split_at(limit.min(text.len()));
    let mut short = Octets::from_slice(alloc, front)?;
    if !rest.is_empty() {
        short.append(b"...")?;
    }
    Ok(short)
}

/// Where the column of a lane begins.
fn column(lane: u64) -> u64 {
    lane.saturating_mul(COLUMN).saturating_add(LEFT + OWN)
}

/// Where the line of a lane stands.
fn stem(lane: u64) -> u64 {
    column(lane).saturating_add(STEM)
}

/// Where the middle of a row stands.
fn height(row: u64) -> u64 {
    row.saturating_mul(ROW).saturating_add(HEAD)
}

/// What a lane is called: its program, and its number.
fn lane_name(alloc: Global, lane: &Lane) -> Result<Octets, NoMemory> {
    let mut name = Octets::new(alloc);
    if let Some(program) = &lane.program {
        let program = shortened(alloc, program.as_slice(), NAME_LENGTH)?;
        put_plain(alloc, &mut name, program.as_slice())?;
        name.append(b" ")?;
    }
    name.append(b"(")?;
    put_number(alloc, &mut name, lane.conn.into())?;
    name.append(b")")?;
    Ok(name)
}

/// Appends what the picture is, for who reads it aloud.
fn put_description(alloc: Global, out: &mut Octets, sketch: &Sketch) -> Result<(), NoMemory> {
    out.append(
        b"<title id=\"title\">A session of smd</title>\n<desc id=\"desc\">Time goes downwards. \
        An arrow to the right is a message that smd sends, and one to the left a message that comes. ",
    )?;
    put_number(alloc, out, sketch.lanes.len() as u64)?;
    out.append(b" connections, from left to right:")?;
    for lane in sketch.lanes.as_slice() {
        let name = lane_name(alloc, lane)?;
        out.append(b" ")?;
        put_text(alloc, out, name.as_slice())?;
        out.append(b",")?;
    }
    out.append(b" with ")?;
    put_number(alloc, out, sketch.arrows.len() as u64)?;
    out.append(b" arrows and ")?;
    put_number(alloc, out, sketch.rounds.len() as u64)?;
    out.append(b" rounds of saves.</desc>\n")
}

/// Appends the beginning of the picture.
fn put_begin(alloc: Global, out: &mut Octets, sketch: &Sketch) -> Result<(), NoMemory> {
    let width = column(sketch.lanes.len() as u64).saturating_add(10);
    let height = height(sketch.row.saturating_add(2));
    out.append(
        b"<svg xmlns=\"http://www.w3.org/2000/svg\" role=\"img\" aria-labelledby=\"title desc\"",
    )?;
    put_tag(
        alloc,
        out,
        &[" width=\"", "\" height=\"", "\" viewBox=\"0 0 ", " "],
        &[width, height, width, height],
    )?;
    out.append(b"\">\n")?;
    put_description(alloc, out, sketch)?;
    put_style(out)?;
    put_box(alloc, out, "paper", (0, 0), (width, height))
}

/// Appends the band of a save behind its lane.
fn put_save(alloc: Global, out: &mut Octets, save: &Save, last: u64) -> Result<(), NoMemory> {
    let class = if save.logout { "logout" } else { "checkpoint" };
    let top = height(save.from).saturating_sub(ROW / 2);
    let bottom = height(save.to.min(last)).saturating_add(ROW / 2);
    put_box(
        alloc,
        out,
        class,
        (column(save.lane), top),
        (COLUMN, bottom.saturating_sub(top)),
    )
}

/// Appends the edge that ties the saves of a round, and what it is.
fn put_round(alloc: Global, out: &mut Octets, round: &Round) -> Result<(), NoMemory> {
    let (class, name) = if round.logout {
        ("logout-edge", "logout")
    } else {
        ("checkpoint-edge", "checkpoint")
    };
    let y = height(round.row).saturating_sub(ROW / 2);
    let from = column(round.first);
    let to = column(round.last.saturating_add(1));
    put_stroke(alloc, out, class, (from, y), (to, y))?;
    put_label(
        alloc,
        out,
        "faint",
        stem(round.first).saturating_add(8),
        y.saturating_sub(5),
        name.as_bytes(),
    )
}

/// Appends what stands above a lane: its name, and the command that began it.
fn put_lane_head(
    alloc: Global,
    out: &mut Octets,
    place: u64,
    lane: &Lane,
    name: &[u8],
) -> Result<(), NoMemory> {
    let x = column(place).saturating_add(8);
    put_label(alloc, out, "name", x, 24, name)?;
    if lane.begun.len() == 0 {
        return Ok(());
    }
    let words = command_words(alloc, lane.begun.as_slice())?;
    let words = shortened(alloc, words.as_slice(), COMMAND_LENGTH)?;
    put_label(alloc, out, "faint", x, 40, b"started by smd:")?;
    put_label(alloc, out, "faint", x, 54, words.as_slice())
}

/// Appends the line of a lane down to a row: where it joins, with its name, and its end.
fn put_stem(
    alloc: Global,
    out: &mut Octets,
    x: u64,
    lane: &Lane,
    name: &[u8],
    last: u64,
) -> Result<(), NoMemory> {
    let top = height(lane.from);
    let bottom = height(if lane.end == LaneEnd::Open {
        last
    } else {
        lane.to
    });
    put_stroke(alloc, out, "stem", (x, top), (x, bottom))?;
    put_dot(alloc, out, x, top)?;
    put_label(
        alloc,
        out,
        "faint",
        x.saturating_add(8),
        top.saturating_add(4),
        name,
    )?;
    put_end(alloc, out, x, bottom, lane.end)
}

/// Appends a lane: what stands above it, and its line.
fn put_lane(
    alloc: Global,
    out: &mut Octets,
    place: u64,
    lane: &Lane,
    last: u64,
) -> Result<(), NoMemory> {
    let name = lane_name(alloc, lane)?;
    put_lane_head(alloc, out, place, lane, name.as_slice())?;
    put_stem(alloc, out, stem(place), lane, name.as_slice(), last)
}

/// Appends a dot.
fn put_dot(alloc: Global, out: &mut Octets, x: u64, y: u64) -> Result<(), NoMemory> {
    put_tag(
        alloc,
        out,
        &["<circle class=\"dot\" cx=\"", "\" cy=\""],
        &[x, y],
    )?;
    out.append(b"\" r=\"4\"/>\n")
}

/// Appends how a lane ends.
fn put_end(alloc: Global, out: &mut Octets, x: u64, y: u64, end: LaneEnd) -> Result<(), NoMemory> {
    match end {
        LaneEnd::Open => Ok(()),
        LaneEnd::Gone => put_dot(alloc, out, x, y),
        LaneEnd::Shut => {
            let (left, right) = (x.saturating_sub(5), x.saturating_add(5));
            let (top, bottom) = (y.saturating_sub(5), y.saturating_add(5));
            put_stroke(alloc, out, "cross", (left, top), (right, bottom))?;
            put_stroke(alloc, out, "cross", (left, bottom), (right, top))
        }
    }
}

/// Appends the head of an arrow, whose tip is at a place.
fn put_head(
    alloc: Global,
    out: &mut Octets,
    direction: Direction,
    x: u64,
    y: u64,
) -> Result<(), NoMemory> {
    let (class, back) = match direction {
        Direction::In => ("says-head", x.saturating_add(8)),
        Direction::Out => ("told-head", x.saturating_sub(8)),
    };
    out.append(b"<polygon class=\"")?;
    out.append(class.as_bytes())?;
    put_tag(
        alloc,
        out,
        &["\" points=\"", ",", " ", ",", " ", ","],
        &[x, y, back, y.saturating_sub(4), back, y.saturating_add(4)],
    )?;
    out.append(b"\"/>\n")
}

/// Appends the arrow of a message and its name.
fn put_arrow(alloc: Global, out: &mut Octets, arrow: &Arrow) -> Result<(), NoMemory> {
    let y = height(arrow.row);
    let near = stem(arrow.lane).saturating_sub(3);
    let far = stem(arrow.lane).saturating_sub(30);
    out.append(b"<g>\n")?;
    put_title(alloc, out, arrow.text.as_slice())?;
    let (class, tip) = match arrow.direction {
        Direction::In => ("says", far),
        Direction::Out => ("told", near),
    };
    put_stroke(alloc, out, class, (far, y), (near, y))?;
    put_head(alloc, out, arrow.direction, tip, y)?;
    put_label(
        alloc,
        out,
        "message",
        stem(arrow.lane).saturating_add(8),
        y.saturating_add(4),
        arrow.name.as_slice(),
    )?;
    out.append(b"</g>\n")
}

/// Appends a note of the manager.
fn put_note(alloc: Global, out: &mut Octets, note: &Note) -> Result<(), NoMemory> {
    let y = height(note.row);
    let words = shortened(alloc, note.text.as_slice(), NOTE_LENGTH)?;
    out.append(b"<g>\n")?;
    put_title(alloc, out, note.text.as_slice())?;
    put_dot(alloc, out, LEFT + 8, y)?;
    put_label(
        alloc,
        out,
        "message",
        LEFT + 18,
        y.saturating_add(4),
        words.as_slice(),
    )?;
    out.append(b"</g>\n")
}

/// Appends the time at a row.
fn put_moment(alloc: Global, out: &mut Octets, moment: &Moment) -> Result<(), NoMemory> {
    let mut time = Octets::new(alloc);
    put_stamp(alloc, &mut time, moment.clock)?;
    time.append(b"s")?;
    let y = height(moment.row).saturating_add(4);
    put_label(alloc, out, "faint", 10, y, time.as_slice())
}

/// Appends what stands behind all arrows.
fn put_ground(alloc: Global, out: &mut Octets, sketch: &Sketch) -> Result<(), NoMemory> {
    for save in sketch.saves.as_slice() {
        put_save(alloc, out, save, sketch.row)?;
    }
    for round in sketch.rounds.as_slice() {
        put_round(alloc, out, round)?;
    }
    for moment in sketch.moments.as_slice() {
        if moment.row <= sketch.row {
            put_moment(alloc, out, moment)?;
        }
    }
    Ok(())
}

/// Appends the lanes.
fn put_lanes(alloc: Global, out: &mut Octets, sketch: &Sketch) -> Result<(), NoMemory> {
    let last = sketch.row.saturating_add(1);
    put_label(alloc, out, "name", LEFT + 2, 24, b"smd and its store")?;
    put_stroke(
        alloc,
        out,
        "stem",
        (LEFT + 8, height(0)),
        (LEFT + 8, height(last)),
    )?;
    let mut place = 0;
    for lane in sketch.lanes.as_slice() {
        put_lane(alloc, out, place, lane, last)?;
        place = place.saturating_add(1);
    }
    Ok(())
}

/// The picture of a sketch.
fn picture(alloc: Global, sketch: &Sketch) -> Result<Octets, NoMemory> {
    let mut out = Octets::new(alloc);
    put_begin(alloc, &mut out, sketch)?;
    put_ground(alloc, &mut out, sketch)?;
    put_lanes(alloc, &mut out, sketch)?;
    for arrow in sketch.arrows.as_slice() {
        put_arrow(alloc, &mut out, arrow)?;
    }
    for note in sketch.notes.as_slice() {
        put_note(alloc, &mut out, note)?;
    }
    out.append(b"</svg>\n")?;
    Ok(out)
}

/// The sketch of lines over the book that the session opened.
fn sketched(alloc: Global, book: Option<&Book>, lines: &[TraceLine]) -> Result<Sketch, NoMemory> {
    let mut watch = Watch::new(alloc);
    let mut sketch = Sketch::new(alloc);
    for said in lines {
        sketch.take(alloc, &mut watch, book, said)?;
    }
    Ok(sketch)
}

/// Draws a trace as SVG. Where it has more bytes than this, its last line isn't of the grammar.
pub fn draw_within(alloc: Global, trace: &[u8], limit: usize) -> Result<ShowAnswer, NoMemory>
    ensures { IfOk result (DrawsWithin limit trace.now) }
{
    match read_lines(alloc, trace, limit)? {
        LineReading::Whole(opening, lines) => {
            let book = opening.book_opened(alloc)?;
            let sketch = sketched(alloc, book.as_ref(), lines.as_slice())?;
            let text = picture(alloc, &sketch)?;
            Ok(ShowAnswer::Text(text))
        }
        LineReading::Malformed { at } => Ok(ShowAnswer::Malformed { at }),
    }
}
