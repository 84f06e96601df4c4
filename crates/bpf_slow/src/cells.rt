//! The cells of the stack as the numbers and pointers that they hold.
ghost use Rattle.std.specs.Prelude.{◌≡◌, ◌≤◌, ◌<◌, ◌+◌, length, map, true, false, Err, IsOk, MatchOption, MatchResult};
ghost use Rattle.std.specs.List.{list_any};
ghost use Rattle.bpf_profile.specs.declared.machine.Cell.TheVariants as cell;
ghost use Rattle.bpf_profile.specs.Machine.{pieces_from, same_region, is_piece, are_pieces, whole_pointer, is_some_piece, cell_bytes, number_of_cells, value_of_cells, cells_of};
ghost use Rattle.bpf_profile.specs.Words.{bytes_in};

use bpf_profile::{Cell, Extension, Region, Size, TrapReason, Value};
use bpf_words::extended;
use byteorder::{ByteOrder, LittleEndian};

/// The eight bytes of a pointer.
fn pieces(region: Region, offset: u64) -> [Cell; 8]
    ensures { result ≡ pieces_from 0 8 region offset }
{
    [
        Cell::Piece(region, offset, 0),
        Cell::Piece(region, offset, 1),
        Cell::Piece(region, offset, 2),
        Cell::Piece(region, offset, 3),
        Cell::Piece(region, offset, 4),
        Cell::Piece(region, offset, 5),
        Cell::Piece(region, offset, 6),
        Cell::Piece(region, offset, 7),
    ]
}

fn same_region(a: Region, b: Region) -> bool
    ensures { result ≡ same_region a b }
{
    match (a, b) {
        (Region::Stack, Region::Stack) | (Region::Context, Region::Context) => true,
        _ => false,
    }
}

/// Whether a cell is byte k of the pointer.
fn is_piece(region: Region, offset: u64, k: usize, cell: Cell) -> bool
    ensures { result ≡ is_piece region offset k cell }
{
    match cell {
        Cell::Piece(other, place, j) => {
            same_region(region, other) && offset == place && k == usize::from(j)
        }
        _ => false,
    }
}

/// Whether the cells are all eight bytes of the pointer, in their order.
fn are_pieces(region: Region, offset: u64, cells: &[Cell]) -> bool
    ensures { result ≡ are_pieces region offset 0 cells.now }
{
    for (k, cell) in cells.iter().enumerate() {
        if !is_piece(region, offset, k, *cell) {
            return false;
        }
    }
    cells.len() == 8
}

/// The pointer whose eight bytes the cells are.
fn whole_pointer(cells: &[Cell]) -> Option<Value>
    ensures { result ≡ whole_pointer cells.now }
{
    let Some(Cell::Piece(region, offset, _)) = cells.first() else {
        return None;
    };
    if are_pieces(*region, *offset, cells) {
        Some(Value::Pointer(*region, *offset))
    } else {
        None
    }
}

fn is_some_piece(cell: Cell) -> bool
    ensures { result ≡ is_some_piece cell }
{
    matches!(cell, Cell::Piece(..))
}

/// Whether a piece of a pointer is among the cells.
fn has_piece(cells: &[Cell]) -> bool
    ensures { result ≡ list_any is_some_piece cells.now }
{
    cells.iter().any(|cell| is_some_piece(*cell))
}

/// Reads the bytes that the cells hold, and answers whether each holds one. Where one doesn't,
/// nothing is said of the room.
pub(crate) fn read_bytes(cells: &[Cell], room: &mut [u8]) -> bool
    requires { length room.old ≡ length cells.now }
    ensures { MatchOption (cell_bytes cells.now) (result ≡ false) (λ bytes. (result ≡ true) × (room.new ≡ bytes)) }
{
    for (i, cell) in cells.iter().enumerate() {
        let Cell::Byte(byte) = *cell else {
            return false;
        };
        room[i] = byte;
    }
    true
}

/// The number in the cells. A piece of a pointer is found before an unset cell.
fn number_of_cells(extension: Extension, size: Size, cells: &[Cell]) -> Result<Value, TrapReason>
    requires { length cells.now ≡ bytes_in size }
    ensures { result ≡ number_of_cells extension (bytes_in size) cells.now }
{
    if has_piece(cells) {
        return Err(TrapReason::Pointer);
    }
    let mut room = [0u8; 8];
    let bytes = &mut room[..cells.len()];
    if !read_bytes(cells, bytes) {
        return Err(TrapReason::Unset);
    }
    let number = LittleEndian::read_uint(bytes, cells.len());
    Ok(Value::Number(extended(extension, size, number)))
}

/// The value in the cells: the pointer whose pieces they are, else a number.
pub(crate) fn value_of_cells(
    extension: Extension,
    size: Size,
    cells: &[Cell],
) -> Result<Value, TrapReason>
    requires { length cells.now ≡ bytes_in size }
    ensures { result ≡ value_of_cells extension (bytes_in size) cells.now }
{
    match whole_pointer(cells) {
        Some(pointer) => Ok(pointer),
        None => number_of_cells(extension, size, cells),
    }
}

/// Writes bytes as cells.
pub(crate) fn write_bytes(bytes: &[u8], room: &mut [Cell])
    requires { length room.old ≡ length bytes.now }
    ensures { room.new ≡ map cell.Byte bytes.now }
{
    for (i, byte) in bytes.iter().enumerate() {
        room[i] = Cell::Byte(*byte);
    }
}

/// Writes the cells that hold a value. A pointer is stored whole; on a trap nothing is said of the
/// room.
pub(crate) fn write_value(value: Value, room: &mut [Cell]) -> Result<(), TrapReason>
    requires { length room.old ≤ 8 }
    ensures { MatchResult (cells_of (length room.old) value) (λ cells. IsOk result × (room.new ≡ cells)) (λ reason. result ≡ Err reason) }
{
    match value {
        Value::Unset => Err(TrapReason::Unset),
        Value::Number(number) => {
            write_bytes(&number.to_le_bytes()[..room.len()], room);
            Ok(())
        }
        Value::Pointer(region, offset) => {
            if room.len() != 8 {
                return Err(TrapReason::Pointer);
            }
            room.copy_from_slice(&pieces(region, offset));
            Ok(())
        }
    }
}
