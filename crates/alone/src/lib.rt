// The job alone, as the program station links it: where nothing else calls the model and the driver, the compiler puts both in their
// place in the job's loop.
#![tactic(auto)]

ghost use Rattle.std.specs.Prelude.{◌≡◌};
ghost use Rattle.bus.specs.Cycle.{high};
ghost use Rattle.job.specs.Bill.{load_of};

use job::Bill;

// What station_load does.
// kept: the C interface: it is linked from an archive by itself (docs/DECISIONS.md, C12)
pub fn station_load_alone(
    part: u32,
    cells: &mut [u16],
    first: u32,
    image: &[u16],
    wp: u32,
    p: u32,
) -> Bill
    ensures { (result ≡ (load_of part cells.old first image.now (high wp) p).bill) × (cells.new ≡ (load_of part cells.old first image.now (high wp) p).cells) }
{
    job::load(part, cells, first, image, 0 < wp, p)
}
