// Part figures, and the k-th write of a command, as plain numbers.
ghost use Rattle.std.specs.Prelude.{◌≡◌};
ghost use Rattle.table.specs.Figures.{figure_of};
ghost use Rattle.driver.specs.Writes.{kth_write};

// The figure of a part in a column, 0 Width to 6 Chip; 0 where it is refused.
#[unsafe(no_mangle)]
pub extern "C" fn station_figure(part: u32, column: u32) -> u32
    ensures { result ≡ (figure_of part column).value }
{
    station::station_figure(part, column)
}

// The answer to the same question: 0, or the refusal 1 or 15.
#[unsafe(no_mangle)]
pub extern "C" fn station_figure_answer(part: u32, column: u32) -> u32
    ensures { result ≡ (figure_of part column).answer }
{
    station::station_figure_answer(part, column)
}

// The address of the k-th write of a command, from 0; 0 where it is refused.
#[unsafe(no_mangle)]
pub extern "C" fn station_write_address(
    part: u32,
    command: u32,
    address: u32,
    data: u16,
    k: u32,
) -> u32
    ensures { result ≡ (kth_write part command address «data» k).address }
{
    station::station_write_address(part, command, address, data, k)
}

// The data of the same write; 0 where it is refused.
#[unsafe(no_mangle)]
pub extern "C" fn station_write_data(
    part: u32,
    command: u32,
    address: u32,
    data: u16,
    k: u32,
) -> u16
    ensures { result ≡ (kth_write part command address «data» k).«data» }
{
    station::station_write_data(part, command, address, data, k)
}

// The answer to the same question: 0, or the refusal 1, 14, 3, 4 or 15.
#[unsafe(no_mangle)]
pub extern "C" fn station_write_answer(
    part: u32,
    command: u32,
    address: u32,
    data: u16,
    k: u32,
) -> u32
    ensures { result ≡ (kth_write part command address «data» k).answer }
{
    station::station_write_answer(part, command, address, data, k)
}
