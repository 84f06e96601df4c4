//! The abstract state of the stack before an instruction.
ghost use Rattle.std.specs.Prelude.{◌≡◌, ℕ, ◌<◌, ◌≤◌, length, slice_set, IfOk};
ghost use Rattle.std.specs.Vec.{vec_capacity};
ghost use Rattle.stack_track.specs.Cells.{cell_in, entry_cells, joined_cells};

use crate::cell::Cell;
use abs_domain::Domain;
use std::alloc::{AllocError, Global};
use std::fmt;
use std::fmt::Debug;
use std::marker::Model;

/// The abstract state of the 512 bytes of the stack. Contracts see the list of its cells, the lowest
/// offsets first.
#[derive(Drop)]
pub struct StackState<D> {
    /// The cells from the one of the highest offsets down to the lowest one that was set so far. Most
    /// programs leave most of the stack unset: so no memory is written for the cells below these, and they
    /// are neither copied nor joined. There is room for all 64.
    held: Vec<Cell<D>>,
}

impl<D> Model for StackState<D> {
    ghost use Rattle.std.specs.Prelude.{List, length, ◌≤◌};
    ghost use Rattle.std.specs.Vec.{vec_capacity};
    ghost use Rattle.stack_track.specs.declared.cell.Cell.{Cell};
    ghost use Rattle.stack_track.specs.Held.{spread};

    ghost Value = { List (Cell D) };

    ghost view = { λ s. spread 64 s.held.items };

    ghost invariant = { λ s. (length s.held.items ≤ 64) × (64 ≤ vec_capacity s.held) };
}

impl<D: Domain> StackState<D> {
    /// The state before the first instruction: no byte is known to be set. It takes the memory that the
    /// state will ever want.
    pub fn entry(alloc: Global) -> Result<Self, AllocError>
        ensures { IfOk result (λ state. state ≡ entry_cells) }
    {
        Ok(StackState {
            held: Vec::with_capacity(alloc, 64)?,
        })
    }

    /// Joins another state into this one, cell by cell: what is known where two paths meet.
    pub fn join(&mut self, other: &Self)
        ensures { self.new ≡ joined_cells ⟦<D as Domain>⟧ self.old other.now }
    {
        self.held.truncate(other.held.len());
        join_cells(&mut self.held, &other.held);
    }

    /// Makes this state the same as another one.
    pub fn copy_from(&mut self, other: &Self)
        ensures { self.new ≡ other.now }
    {
        copy_held(&mut self.held, &other.held);
    }

    /// The cell with this index, from 0 to 63.
    pub(crate) fn cell(&self, number: usize) -> Cell<D>
        requires { number < 64 }
        ensures { result ≡ cell_in self.now number }
    {
        held_at(&self.held, 63 - number)
    }

    /// Replaces the cell of this index, from 0 to 63.
    pub(crate) fn set(&mut self, number: usize, cell: Cell<D>)
        requires { number < 64 }
        ensures { self.new ≡ slice_set self.old number cell }
    {
        hold(&mut self.held, 63 - number);
        self.held[63 - number] = cell;
    }
}

impl<D: Domain + Debug> Debug for StackState<D> {
    fn fmt<W: fmt::Write>(&self, f: &mut fmt::Formatter<W>) -> fmt::Result {
        show(&self.held, f)
    }
}

/// Shows all 64 cells, the lowest offsets first.
fn show<D: Domain + Debug, W: fmt::Write>(
    held: &[Cell<D>],
    f: &mut fmt::Formatter<W>,
) -> fmt::Result {
    let mut list = f.debug_list();
    for number in 0..64 {
        list.entry(&held_at(held, 63 - number));
    }
    list.finish()
}

/// The cell at an index of those that are held, of which nothing is known where it isn't held.
fn held_at<D: Domain>(held: &[Cell<D>], place: usize) -> Cell<D>
    ensures { result ≡ cell_in held.now place }
{
    match held.get(place) {
        Some(cell) => *cell,
        None => Cell::Bytes(0),
    }
}

/// Holds the cells up to the one at an index. Nothing is known of those that come.
fn hold<D: Domain>(held: &mut Vec<Cell<D>>, place: usize)
    requires room { place < vec_capacity held.old }
    ensures held { place < length held.new.items }
    ensures few { (most : ℕ) → place < most → length held.old.items ≤ most → length held.new.items ≤ most }
    ensures room { vec_capacity held.new ≡ vec_capacity held.old }
    ensures same { (k : ℕ) → cell_in held.new.items k ≡ cell_in held.old.items k }
{
    for _next in held.len()..place + 1 {
        held.push_reserved(Cell::Bytes(0));
    }
}

/// Joins cells into others, each with the one in its place.
fn join_cells<D: Domain>(cells: &mut [Cell<D>], others: &[Cell<D>])
    requires { length cells.old ≤ length others.now }
    ensures { cells.new ≡ joined_cells ⟦<D as Domain>⟧ cells.old others.now }
{
    for i in 0..cells.len() {
        cells[i] = cells[i].join(others[i]);
    }
}

/// Makes the cells that are held the same as others.
fn copy_held<D: Domain>(held: &mut Vec<Cell<D>>, others: &[Cell<D>])
    requires { length others.now ≤ vec_capacity held.old }
    ensures copied { held.new.items ≡ others.now }
    ensures room { vec_capacity held.new ≡ vec_capacity held.old }
{
    held.clear();
    for i in 0..others.len() {
        held.push_reserved(others[i]);
    }
}
