//! The cells of a picture: one for each turn, and one for turns in a row that only give way.

ghost use Rattle.std.specs.Prelude.{◌≡◌, ◌+◌, ◌-◌, ◌<◌, ◌≤◌, ◌^◌, ◌∷◌, ◌++◌, All, Bool, List, length, nat_lt, IfOk, OnOk};
ghost use Rattle.run_pictures.specs.Cells.{AreOf, IsQuiet, cells_from, cells_of, run_cells, single_cells};

use std::alloc::{AllocError, Global};

/// A cell of a picture (our own): a turn, or turns in a row that only give way.
#[derive(Clone, Copy)]
pub struct Cell {
    /// The column of its first turn: how many turns with a box had begun before.
    pub first: usize,
    /// How many turns it has, 1 or more.
    pub turns: usize,
}

impl Cell {
    /// Whether its turns are folded: it has several.
    pub(crate) fn is_fold(&self) -> bool
        ensures { result ≡ nat_lt 1 self.now.turns }
    {
        self.turns > 1
    }
}

// How many turns in a row that only give way are folded at least.
const FOLDED: usize = 4;

// Adds a cell for each of so many turns.
fn add_singles(cells: &mut Vec<Cell>, first: usize, turns: usize) -> Result<(), AllocError>
    requires { first + turns < 2 ^ 63 }
    ensures { OnOk result (cells.new.items ≡ cells.old.items ++ single_cells first turns) }
{
    for place in 0..turns {
        cells.push(Cell {
            first: first + place,
            turns: 1,
        })?;
    }
    Ok(())
}

// Adds the cells of so many turns in a row that only give way.
fn add_run(cells: &mut Vec<Cell>, first: usize, turns: usize) -> Result<(), AllocError>
    requires { first + turns < 2 ^ 63 }
    ensures { OnOk result (cells.new.items ≡ cells.old.items ++ run_cells first turns) }
{
    if turns < FOLDED {
        return add_singles(cells, first, turns);
    }
    cells.push(Cell { first, turns: 1 })?;
    cells.push(Cell {
        first: first + 1,
        turns: turns - 1,
    })?;
    Ok(())
}

// Adds the cells that end with the turn of a column, before which so many in a row only give way: none where it does too. How many in a
// row do then.
fn add_turn(
    cells: &mut Vec<Cell>,
    column: usize,
    is_quiet: bool,
    run: usize,
) -> Result<usize, AllocError>
    requires within { run ≤ column }
    requires limit { column < 2 ^ 63 }
    ensures within { IfOk result (λ next. next ≤ column + 1) }
    ensures cells { IfOk result (λ next. (rest : List Bool) → cells.new.items ++ cells_from (column + 1 - next) next rest ≡ cells.old.items ++ cells_from (column - run) run (is_quiet ∷ rest)) }
{
    if is_quiet {
        return Ok(run + 1);
    }
    add_run(cells, column - run, run)?;
    cells.push(Cell {
        first: column,
        turns: 1,
    })?;
    Ok(0)
}

/// The cells of turns, in the order in which these began; `quiet` says of each whether it only gives way. Of four and more in a row that
/// do, all but the first have one cell. In time and memory linear in the turns. An `Err` says that a growth was refused.
pub fn cells_of(alloc: Global, quiet: &[bool]) -> Result<Vec<Cell>, AllocError>
    ensures cells { IfOk result (λ cells. cells.items ≡ cells_of quiet.now) }
    ensures all { IfOk result (λ cells. AreOf 0 cells.items (length quiet.now)) }
    ensures quiet { IfOk result (λ cells. All (IsQuiet quiet.now) cells.items) }
{
    let mut cells = Vec::with_capacity(alloc, quiet.len())?;
    let mut run = 0;
    for column in 0..quiet.len() {
        run = add_turn(&mut cells, column, quiet[column], run)?;
    }
    add_run(&mut cells, quiet.len() - run, run)?;
    Ok(cells)
}
