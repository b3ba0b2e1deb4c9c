// Whole texts to an output.
ghost use Rattle.std.specs.Prelude.{OnOk};
ghost use Rattle.std.specs.List.{flat_map};
ghost use Rattle.tera_run_script.specs.Device.{Writes};

use crate::stream::{Failure, Output};

/// Writes all of a piece, unless the output fails.
fn write_piece<W: Output>(writer: &mut W, piece: &[u8]) -> Result<(), Failure>
    ensures { Writes W.passed W.contents writer.old writer.new piece.now result }
{
    let mut rest = piece;
    while !rest.is_empty() {
        let taken = writer.write(rest)?;
        rest = &rest[taken..];
    }
    Ok(())
}

/// Writes the pieces in order, unless the output fails.
pub fn write_pieces<W: Output>(writer: &mut W, pieces: &[&[u8]]) -> Result<(), Failure>
    ensures { Writes W.passed W.contents writer.old writer.new
        (flat_map (λ piece. piece.now) pieces.now) result }
{
    for piece in pieces {
        if let Err(failure) = write_piece(writer, piece) {
            return Err(failure);
        }
    }
    Ok(())
}

/// Writes the pieces in order, and has them handed on, unless the output fails.
pub fn write_and_flush<W: Output>(writer: &mut W, pieces: &[&[u8]]) -> Result<(), Failure>
    ensures written { Writes W.passed W.contents writer.old writer.new
        (flat_map (λ piece. piece.now) pieces.now) result }
    ensures settled { OnOk result (W.settled writer.new) }
{
    match write_pieces(writer, pieces) {
        Ok(()) => writer.flush(),
        Err(failure) => Err(failure),
    }
}
