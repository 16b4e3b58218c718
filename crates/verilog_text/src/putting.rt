//! Pieces are added to a text.
ghost use Rattle.std.specs.Prelude.{◌≡◌, OnOk};
ghost use Rattle.verilog_text.specs.Blanks.{piece_text};
ghost use Rattle.verilog_text.specs.Laying.{with_piece, with_pieces};

use crate::piece::Piece;
use crate::tokens::put_token;
use esi_base::{NoMemory, Octets};

/// Adds pieces, in their order.
pub(crate) fn put(text: &mut Octets, pieces: &[Piece<'_>]) -> Result<(), NoMemory>
    ensures { OnOk result (text.new ≡ with_pieces pieces.now text.old) }
{
    for piece in pieces {
        put_piece(text, piece)?;
    }
    Ok(())
}

/// Adds a piece.
#[tactic(auto, unfolding(crate::specs::Laying::with_piece, crate::specs::Blanks::piece_text))]
fn put_piece(text: &mut Octets, piece: &Piece<'_>) -> Result<(), NoMemory>
    ensures { OnOk result (text.new ≡ with_piece piece.now text.old) }
{
    match piece {
        Piece::Space => text.push_all(b" ")?,
        Piece::Indent => text.push_all(b"  ")?,
        Piece::LineEnd => text.push_all(b"\n")?,
        Piece::Spelled(token) => put_token(text, token)?,
    }
    Ok(())
}
