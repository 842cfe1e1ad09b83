// The driver: its state crosses as plain numbers, and any numbers may be given.
ghost use Rattle.std.specs.Prelude.{◌≡◌};
ghost use Rattle.driver.specs.Machine.{start_of};
ghost use Rattle.numbers.specs.Machine.{start_numbers, stepped_of};

use numbers::{DriverNumbers, StartNumbers, StepNumbers};

// Starts a command, polled every p µs: refusals 1, 10, 14, 3, 4.
#[unsafe(no_mangle)]
pub extern "C" fn station_start(
    part: u32,
    command: u32,
    address: u32,
    data: u16,
    p: u32,
) -> StartNumbers
    ensures { result ≡ start_numbers (start_of part command address «data» p) }
{
    station::station_start(part, command, address, data, p)
}

// Given the value last read, names the next cycle or the end: 5 for numbers that are no state in range.
#[unsafe(no_mangle)]
pub extern "C" fn station_step(state: DriverNumbers, read: u16) -> StepNumbers
    ensures { result ≡ stepped_of state read }
{
    station::station_step(state, read)
}
