//! A row of cells: all transfers of a cycle depend on the cells as they were before it.
ghost use Rattle.std.specs.Prelude.{◌≡◌, drop};
ghost use Rattle.pipe_cells.specs.Cells.{next_ready, word_out, row_after};

use crate::cell::Cell;
use esi_base::Word;

/// Whether what stands at this index takes a word: the cell there, or past the last one the ring after
/// the row, where it has room.
pub fn is_ready_at(cells: &[Cell], at: usize, room: bool) -> bool
    ensures { result ≡ next_ready (drop at cells.now) room }
{
    match cells.get(at) {
        Some(cell) => cell.is_ready(),
        None => room,
    }
}

/// The word that comes out of the row, to which a word is offered or none.
pub fn word_from(cells: &[Cell], offered: Option<Word>) -> Option<Word>
    ensures { result ≡ word_out offered cells.now }
{
    match cells {
        [.., last] => last.first(),
        [] => offered,
    }
}

/// The row after a cycle, in which it is offered a word or none, and there is room after it or not.
pub fn pass(cells: &mut [Cell], offered: Option<Word>, room: bool)
    ensures { cells.new ≡ row_after offered cells.old room }
{
    let mut carried = offered;
    for at in 0..cells.len() {
        let first = cells[at].first();
        let gives = is_ready_at(cells, at + 1, room);
        cells[at].pass(carried, gives);
        carried = first;
    }
}
