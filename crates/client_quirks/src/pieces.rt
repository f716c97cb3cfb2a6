ghost use Rattle.std.specs.Prelude.{◌≡◌, ◌≤◌, ◌++◌, ◌∷◌, [], length, OnOk, IfOk};
ghost use Rattle.std.specs.List.{concat};

use owned_lists::{ListOf, NoMemory, Octets};
use sm_world::PIECE_LIMIT;
use std::alloc::Global;
use std::marker::Model;

/// A piece of a stream: 1 to 65,536 bytes.
#[derive(Debug, Drop)]
pub struct StreamPiece {
    bytes: Octets,
}

impl Model for StreamPiece {
    ghost use Rattle.std.specs.Prelude.{◌≤◌, List, ℕ, length};

    ghost Value = { List ℕ };

    ghost view = { λ piece. piece.bytes };

    ghost invariant = { λ piece. (1 ≤ length piece.bytes) × (length piece.bytes ≤ 65536) };
}

pub type PieceList = ListOf<StreamPiece>;

impl StreamPiece {
    /// These bytes as a piece.
    pub fn new(bytes: Octets) -> StreamPiece
        requires some { 1 ≤ length bytes }
        requires within { length bytes ≤ 65536 }
        ensures { result ≡ bytes }
    {
        StreamPiece { bytes }
    }

    pub fn as_slice(&self) -> &[u8]
        ensures { result.now ≡ self.now }
    {
        self.bytes.as_slice()
    }

    /// Gives the bytes back.
    pub fn into_octets(self) -> Octets
        ensures is { result ≡ self }
        ensures some { 1 ≤ length result }
        ensures within { length result ≤ 65536 }
    {
        let StreamPiece { bytes } = self;
        bytes
    }
}

/// A list of one piece.
pub fn alone(alloc: Global, piece: StreamPiece) -> Result<PieceList, NoMemory>
    ensures { IfOk result (λ list. list ≡ piece ∷ []) }
{
    let mut list = PieceList::new(alloc);
    list.push(piece)?;
    Ok(list)
}

/// Adds bytes to a list, in as few pieces as they fit into.
pub fn add_bytes(alloc: Global, bytes: &[u8], list: &mut PieceList) -> Result<(), NoMemory>
    ensures { OnOk result (concat list.new ≡ concat list.old ++ bytes.now) }
{
    let mut rest = bytes;
    while !rest.is_empty() {
        let count = rest.len().min(PIECE_LIMIT);
        let (front, left) = rest.split_at(count);
        list.push(StreamPiece::new(Octets::from_slice(alloc, front)?))?;
        rest = left;
    }
    Ok(())
}

/// The bytes of these pieces, one behind the other.
pub fn joined(alloc: Global, pieces: &[StreamPiece]) -> Result<Octets, NoMemory>
    ensures { IfOk result (λ bytes. bytes ≡ concat pieces.now) }
{
    let mut bytes = Octets::new(alloc);
    for piece in pieces {
        bytes.append(piece.as_slice())?;
    }
    Ok(bytes)
}
