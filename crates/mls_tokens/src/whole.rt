//! Writes, each of which is whole or has failed.
ghost use Rattle.std.specs.Prelude.{OnOk};
ghost use Rattle.std.specs.Io.KnownBytes.{Appends};
ghost use Rattle.mls_tokens.specs.Whole.{piece_text, pieces_text};

use crate::piece::Piece;
use std::io::Write;
use std::marker::PhantomData;

/// A write to such a writer failed. Nothing makes one but a write of this crate that failed.
#[derive(Drop)]
pub struct WriteFault<W> {
    writer: PhantomData<W>,
}

/// Writes all bytes.
pub fn write_bytes<W: Write>(writer: &mut W, bytes: &[u8]) -> Result<(), WriteFault<W>>
    ensures { OnOk result (Appends (W.contents writer.old) (W.contents writer.new) bytes.now) }
{
    match writer.write_all(bytes) {
        Ok(()) => Ok(()),
        Err(_) => Err(WriteFault {
            writer: PhantomData,
        }),
    }
}

/// Writes the digits of a number.
fn write_number<W: Write>(writer: &mut W, number: usize) -> Result<(), WriteFault<W>>
    ensures { OnOk result (Appends (W.contents writer.old) (W.contents writer.new) (piece_text (Piece.Number number))) }
{
    match write!(writer, "{number}") {
        Ok(()) => Ok(()),
        Err(_) => Err(WriteFault {
            writer: PhantomData,
        }),
    }
}

/// Writes a part of a text.
fn write_piece<W: Write>(writer: &mut W, piece: &Piece) -> Result<(), WriteFault<W>>
    ensures { OnOk result (Appends (W.contents writer.old) (W.contents writer.new) (piece_text piece.now)) }
{
    match piece {
        Piece::Text(text) => write_bytes(writer, text.as_bytes()),
        Piece::Number(number) => write_number(writer, *number),
    }
}

/// Writes the parts of a text, in order.
pub fn write_pieces<W: Write>(writer: &mut W, pieces: &[Piece]) -> Result<(), WriteFault<W>>
    ensures { OnOk result (Appends (W.contents writer.old) (W.contents writer.new) (pieces_text pieces.now)) }
{
    for piece in pieces {
        write_piece(writer, piece)?;
    }
    Ok(())
}
