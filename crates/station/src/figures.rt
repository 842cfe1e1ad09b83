// Part figures, and the k-th write of a command, as plain numbers.
ghost use Rattle.std.specs.Prelude.{◌≡◌};
ghost use Rattle.parts.specs.Refused.{answer_of};
ghost use Rattle.table.specs.Figures.{figure_of};
ghost use Rattle.driver.specs.Writes.{kth_write};

use parts::Refusal;

// The answer of a call that may be refused: 0, or the refusal's number.
fn answer_of<T: Drop>(told: Result<T, Refusal>) -> u32
    ensures { result ≡ answer_of told }
{
    match told {
        Ok(_) => 0,
        Err(refusal) => refusal.number(),
    }
}

// The figure of a part in a column, 0 Width to 6 Chip; 0 where it is refused.
pub fn station_figure(part: u32, column: u32) -> u32
    ensures { result ≡ (figure_of part column).value }
{
    table::part_figure(part, column).unwrap_or(0)
}

// The answer to the same question: 0, or the refusal 1 or 15.
pub fn station_figure_answer(part: u32, column: u32) -> u32
    ensures { result ≡ (figure_of part column).answer }
{
    answer_of(table::part_figure(part, column))
}

// The address of the k-th write of a command, from 0; 0 where it is refused.
pub fn station_write_address(part: u32, command: u32, address: u32, data: u16, k: u32) -> u32
    ensures { result ≡ (kth_write part command address «data» k).address }
{
    driver::kth_write(part, command, address, data, k).map_or(0, |write| write.address)
}

// The data of the same write; 0 where it is refused.
pub fn station_write_data(part: u32, command: u32, address: u32, data: u16, k: u32) -> u16
    ensures { result ≡ (kth_write part command address «data» k).«data» }
{
    driver::kth_write(part, command, address, data, k).map_or(0, |write| write.data)
}

// The answer to the same question: 0, or the refusal 1, 14, 3, 4 or 15.
pub fn station_write_answer(part: u32, command: u32, address: u32, data: u16, k: u32) -> u32
    ensures { result ≡ (kth_write part command address «data» k).answer }
{
    answer_of(driver::kth_write(part, command, address, data, k))
}
