use crate::client_line::ClientLine;
use std::alloc::{AllocError, Global};

/// The heads of the columns.
const HEADS: [&str; 9] = [
    " ",
    "CONN",
    "PROGRAM",
    "STAGE",
    "SILENT",
    "ASKED",
    "ANSWERED",
    "WAITED FOR",
    "ID",
];

/// The cells of a row.
type Row = Vec<String>;

/// A text of the manager's as people read it: with its blanks.
fn readable(alloc: Global, text: &str) -> Result<String, AllocError> {
    text.replace(alloc, "\\x20", " ")
}

/// For how long somebody has been silent, in seconds and tenths.
fn silence(alloc: Global, milliseconds: u64) -> Result<String, AllocError> {
    let tenths = milliseconds % 1000 / 100;
    format!(in alloc; "{}.{tenths} s", milliseconds / 1000)
}

fn head_row(alloc: Global) -> Result<Row, AllocError> {
    let mut row = Vec::new(alloc);
    for head in HEADS.as_slice() {
        row.push(head.to_string(alloc)?)?;
    }
    Ok(row)
}

fn client_row(alloc: Global, client: &ClientLine<'_>) -> Result<Row, AllocError> {
    let mark = if client.holds { "*" } else { " " };
    let mut row = Vec::new(alloc);
    row.push(mark.to_string(alloc)?)?;
    row.push(client.conn.to_string(alloc)?)?;
    row.push(readable(alloc, client.program)?)?;
    row.push(client.stage.to_string(alloc)?)?;
    row.push(silence(alloc, client.silent)?)?;
    row.push(client.asked.to_string(alloc)?)?;
    row.push(client.answered.to_string(alloc)?)?;
    row.push(client.owes().to_string(alloc)?)?;
    row.push(readable(alloc, client.id)?)?;
    Ok(row)
}

/// How wide the widest cell of a column is.
fn width_of(rows: &[Row], column: usize) -> usize {
    let mut width = 0;
    for row in rows {
        if let Some(cell) = row.get(column) {
            width = width.max(cell.len());
        }
    }
    width
}

/// Adds a cell, and as many blanks as its column wants.
fn put_cell(text: &mut String, cell: &str, width: usize) -> Result<(), AllocError> {
    text.push_str(cell)?;
    for _ in cell.len()..width {
        text.push(' ')?;
    }
    Ok(())
}

/// Adds the line of a row, without blanks at its end.
fn put_row(
    alloc: Global,
    text: &mut String,
    row: &[String],
    rows: &[Row],
) -> Result<(), AllocError> {
    let mut line = String::new(alloc);
    for (column, cell) in row.iter().enumerate() {
        put_cell(&mut line, cell.as_str(), width_of(rows, column))?;
        line.push_str("  ")?;
    }
    text.push_str(line.as_str().trim_end())?;
    text.push('\n')
}

/// The table of these clients.
pub fn table_of(alloc: Global, clients: &[ClientLine<'_>]) -> Result<String, AllocError> {
    let mut rows = Vec::new(alloc);
    rows.push(head_row(alloc)?)?;
    for client in clients {
        rows.push(client_row(alloc, client)?)?;
    }
    let mut text = String::new(alloc);
    for row in &rows {
        put_row(alloc, &mut text, row.as_slice(), rows.as_slice())?;
    }
    Ok(text)
}
