// The job and the second call, at a WP# level given as a number.
ghost use Rattle.std.specs.Prelude.{◌≡◌};
ghost use Rattle.bus.specs.Cycle.{high};
ghost use Rattle.job.specs.Bill.{load_of, report_of};

use job::{Bill, Report};

// The job: loads the image from first on, and hands back the bill. Refusals 1, 2, 10, 6, 7, 8, 9.
#[unsafe(no_mangle)]
pub extern "C" fn station_load(
    part: u32,
    cells: &mut [u16],
    first: u32,
    image: &[u16],
    wp: u32,
    p: u32,
) -> Bill
    ensures { (result ≡ (load_of part cells.old first image.now (high wp) p).bill) × (cells.new ≡ (load_of part cells.old first image.now (high wp) p).cells) }
{
    station::station_load(part, cells, first, image, wp, p)
}

// The second call: sends only the first k cycles of the job, all if fewer.
#[unsafe(no_mangle)]
pub extern "C" fn station_load_first(
    part: u32,
    cells: &mut [u16],
    first: u32,
    image: &[u16],
    wp: u32,
    p: u32,
    k: u64,
) -> Report
    ensures { (result ≡ (report_of part cells.old first image.now (high wp) p k).report) × (cells.new ≡ (report_of part cells.old first image.now (high wp) p k).cells) }
{
    station::station_load_first(part, cells, first, image, wp, p, k)
}
