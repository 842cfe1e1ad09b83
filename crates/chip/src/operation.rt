// What an operation leaves on the cells, finished or cut short.
ghost use Rattle.std.specs.Prelude.{◌≡◌, map, ◌+◌, ◌≤◌, length};
ghost use Rattle.std.specs.Int.Bits.{bit_or};
ghost use Rattle.parts.specs.Width.{value_of};
ghost use Rattle.device.specs.Operation.{cells_of, complete_on, cut_on};

use crate::cycle::Part;
use device::Operation;
use parts::names::{BLOCK, PROGRAM, SECTOR};
use parts::{Row, Span};

// The cells of an operation.
#[tactic(auto, unfolding(device::specs::Operation::cells_of))]
pub(crate) fn cells_of(row: Row, o: Operation) -> Span
    ensures { result ≡ cells_of row o }
{
    match o.kind {
        PROGRAM => Span {
            first: o.address,
            count: 1,
        },
        SECTOR => row.sector_of(o.address),
        BLOCK => row.block_of(o.address),
        _ => Span {
            first: 0,
            count: row.cells,
        },
    }
}

// Each cell becomes its value OR the scar.
fn scar_each(cells: &mut [u16], width: u32, scar: u16)
    ensures { cells.new ≡ map (λ x. bit_or (value_of width x) scar) cells.old }
{
    for cell in cells.iter_mut() {
        *cell = parts::value(width, *cell) | scar;
    }
}

// The operation completes on the cells.
// kept: no plainer: that the range is inside the cells ties it to what is lent at this cycle; so of `cut_short` and `cut_one`
#[tactic(auto, unfolding(device::specs::Operation::complete_on), using(crate::proofs::Rules::completion))]
pub(crate) fn complete(cells: &mut [u16], part: Part, o: Operation)
    requires { (cells_of part.row o).first + (cells_of part.row o).count ≤ length cells.old }
    ensures { cells.new ≡ complete_on part.row o cells.old }
{
    if o.kind == PROGRAM {
        cells[o.address as usize] &= o.data;
        return;
    }
    let span = cells_of(part.row, o);
    let first = span.first as usize;
    let end = first + span.count as usize;
    cells[first..end].fill(parts::blank(part.row.width));
}

// The operation is cut short.
// kept: no plainer: what this and `complete` share is three lines, and a function that lends the range back owes a clause on the loan
#[tactic(auto, unfolding(device::specs::Operation::cut_on), using(crate::proofs::Rules::cut))]
pub(crate) fn cut_short(cells: &mut [u16], row: Row, o: Operation, scar: u16)
    requires { (cells_of row o).first + (cells_of row o).count ≤ length cells.old }
    ensures { cells.new ≡ cut_on row o scar cells.old }
{
    let mark = parts::value(row.width, scar);
    if o.kind == PROGRAM {
        cells[o.address as usize] &= o.data | mark;
        return;
    }
    let span = cells_of(row, o);
    let first = span.first as usize;
    let end = first + span.count as usize;
    scar_each(&mut cells[first..end], row.width, mark);
}
