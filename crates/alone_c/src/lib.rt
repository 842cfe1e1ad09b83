// What the program station links beside the library station: the export of the library alone, a call of its function there under the
// same clause. By itself in its archive, as nothing else there calls the model and the driver.
// kept: the C interface: an exported function is a function of its own, and a static library is no library of another crate
#![tactic(auto)]

ghost use Rattle.std.specs.Prelude.{◌≡◌};
ghost use Rattle.bus.specs.Cycle.{high};
ghost use Rattle.job.specs.Bill.{load_of};

use job::Bill;

// What station_load does.
#[unsafe(no_mangle)]
pub extern "C" fn station_load_alone(
    part: u32,
    cells: &mut [u16],
    first: u32,
    image: &[u16],
    wp: u32,
    p: u32,
) -> Bill
    ensures { (result ≡ (load_of part cells.old first image.now (high wp) p).bill) × (cells.new ≡ (load_of part cells.old first image.now (high wp) p).cells) }
{
    alone::station_load_alone(part, cells, first, image, wp, p)
}
