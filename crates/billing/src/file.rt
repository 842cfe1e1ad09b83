// The bill of a job file: refused with 13, or that of its job on a blank bench part.
ghost use Rattle.std.specs.Prelude.{◌≡◌, ◌≤◌};
ghost use Rattle.billing.specs.File.{bill_of_file, bill_of_job};

use job::Bill;
use jobfile::JobFile;
use parts::Refusal;

// The bytes of the longest file that is taken.
const LONGEST: usize = 20480;

// The bench part.
const BENCH: u32 = 0;

// The bill of the job that a file asks for, on a blank bench part.
fn bill_job(file: &[u8], asked: JobFile) -> Bill
    requires { asked.count ≤ 10240 }
    ensures { result ≡ bill_of_job file.now asked }
{
    // kept: a rule of the project: no heap
    let mut values = [0u16; 10240];
    let image = &mut values[..asked.count];
    jobfile::read_image(file, asked.start, image);
    let mut cells = [0xffffu16; 8192];
    job::load(
        asked.part,
        &mut cells,
        asked.first,
        image,
        asked.wp,
        asked.p,
    )
}

// The bill of a job file: 13 for one of more than 20,480 bytes or malformed; then the job's own refusals.
#[tactic(auto, using(crate::proofs::Asked::files))]
pub fn bill_file(file: &[u8]) -> Bill
    ensures { result ≡ bill_of_file file.now }
{
    if LONGEST < file.len() {
        return Bill::from(Refusal::BadFile);
    }
    let asked = jobfile::read_job(file);
    // The other parts have other cells: told apart here, so that the job is compiled for the bench part alone.
    match asked.part {
        _ if 0 < asked.answer => Bill::from(Refusal::BadFile),
        BENCH => bill_job(file, asked),
        1..=10 => Bill::from(Refusal::WrongCells),
        _ => Bill::from(Refusal::NoPart),
    }
}
