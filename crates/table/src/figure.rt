// The figures of the part table.
ghost use Rattle.std.specs.Prelude.{◌≡◌};
ghost use Rattle.table.specs.Figures.{figure_of, told_figure};

use crate::part_row;
use parts::Refusal;

// The figure of a part in a column, 0 Width to 6 Chip: 1 for a part above 10, 15 for a column above 6.
#[tactic(auto, unfolding(crate::specs::Figures::figure_of))]
pub fn part_figure(part: u32, column: u32) -> Result<u32, Refusal>
    ensures { told_figure result ≡ figure_of part column }
{
    let row = part_row(part)?;
    let columns = [
        row.width,
        row.cells,
        row.block,
        row.device,
        row.program,
        row.erase,
        row.chip,
    ];
    columns
        .get(column as usize)
        .copied()
        .ok_or(Refusal::NoEntry)
}
