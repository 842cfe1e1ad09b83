// The loader for a real socket: its job crosses as plain numbers, and any numbers may be given.
ghost use Rattle.std.specs.Prelude.{◌≡◌};
ghost use Rattle.bus.specs.Cycle.{high};
ghost use Rattle.job.specs.Loading.{begin_load};
ghost use Rattle.numbers.specs.Loading.{begin_numbers, turned_of};

use numbers::{BeginNumbers, LoadingNumbers, TurnNumbers};

// Begins a job to which no cells are lent: refusals 1, 10, 6, 7, 8, 9.
#[unsafe(no_mangle)]
pub extern "C" fn station_begin(
    part: u32,
    first: u32,
    image: &[u16],
    wp: u32,
    p: u32,
) -> BeginNumbers
    ensures { result ≡ begin_numbers (begin_load part first image.now (high wp) p) }
{
    station::station_begin(part, first, image, wp, p)
}

// Given the value last read, names the next cycle or the end: 5 for numbers that are no state in range.
#[unsafe(no_mangle)]
pub extern "C" fn station_turn(
    loading: LoadingNumbers,
    image: &[u16],
    seen: &mut [u16; 4096],
    read: u16,
) -> TurnNumbers
    ensures { (result ≡ (turned_of loading image.now seen.old read).turn) × (seen.new ≡ (turned_of loading image.now seen.old read).seen) }
{
    station::station_turn(loading, image, seen, read)
}
