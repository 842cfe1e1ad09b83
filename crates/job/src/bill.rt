// The job, the second call, and the bill.
ghost use Rattle.std.specs.Prelude.{◌≡◌, ◌≤◌};
ghost use Rattle.parts.specs.Refused.{number_of};
ghost use Rattle.job.specs.Formulas.{operation_time};
ghost use Rattle.job.specs.Bill.{FullTimeFits, bill_of, full_of, job_on, load_of, refused_bill, refused_report, report_of, reported};

use crate::loader::{Job, Work};
use crate::run::{Last, MOST_CYCLES, RunEnd, Tally, run};
use parts::names::{PROGRAM, SECTOR};
use parts::{Refusal, Row};

// The bill: µs saved and spent, then counts, the sum, and 0 or the refusal.
// kept: the C interface: bill and report cross C as they are
#[repr(C)]
#[derive(Clone, Copy, Default)]
pub struct Bill {
    pub saved: u64,
    pub spent: u64,
    pub erases: u64,
    pub programs: u64,
    pub polls: u64,
    pub scans: u64,
    pub confirms: u64,
    pub sum: u16,
    pub answer: u32,
}

// What the second call hands back: 0 or the refusal, how many cycles were sent, the last one and its reply, counts and µs so far.
#[repr(C)]
#[derive(Clone, Copy, Default)]
pub struct Report {
    pub answer: u32,
    pub sent: u64,
    pub last: Last,
    pub reply: u16,
    pub erases: u64,
    pub programs: u64,
    pub polls: u64,
    pub scans: u64,
    pub confirms: u64,
    pub time: u64,
}

// A job that was not refused, on a part that was looked up.
pub(crate) fn job_on(row: Row, part: u32, first: u32, count: u32, wp: bool, p: u32) -> Job
    ensures { result ≡ job_on row part first count wp p }
{
    Job {
        part,
        row,
        size: row.sector_size(),
        first,
        count,
        wp,
        p,
    }
}

// The bill of a refusal.
impl From<Refusal> for Bill {
    ghost from_gives = { λ e b. b ≡ refused_bill (number_of e) };

    fn from(refusal: Refusal) -> Bill {
        Bill {
            answer: refusal.number(),
            ..Bill::default()
        }
    }
}

// The report of a refusal.
impl From<Refusal> for Report {
    ghost from_gives = { λ e r. r ≡ refused_report (number_of e) };

    fn from(refusal: Refusal) -> Report {
        Report {
            answer: refusal.number(),
            ..Report::default()
        }
    }
}

// The report of what was sent, and the number that the loader stopped with.
fn write_report(e: RunEnd) -> Report
    ensures { result ≡ reported e.held e.answer }
{
    let h = e.held;
    let t = h.tally;
    Report {
        answer: e.answer,
        sent: h.sent,
        last: h.last,
        reply: h.reply,
        erases: t.erases,
        programs: t.programs,
        polls: t.polls,
        scans: t.scans,
        confirms: t.confirms,
        time: t.time,
    }
}

// A job whose full time fits its type.
#[derive(Clone, Copy)]
struct Full {
    job: Job,
    ghost fits: { FullTimeFits job },
}

impl Full {
    // The µs of an operation: N polls p apart, and the confirming read.
    #[tactic(auto, unfolding(driver::specs::Machine::confirm_after), using(crate::proofs::Billing::times))]
    fn operation_time(self, command: u32) -> u64
        requires { command ≤ 1 }
        ensures { result ≡ operation_time self.job command }
    {
        let polls = parts::rounded_up(self.job.row.time(command), self.job.p);
        polls as u64 * self.job.p as u64 + driver::CONFIRM_AFTER as u64
    }

    // The time of a full job: every sector erased and every cell programmed.
    #[tactic(auto, unfolding(crate::specs::Bill::full_of), using(crate::proofs::Billing::times))]
    fn time(self) -> u64
        ensures { result ≡ full_of self.job }
    {
        let erase = self.operation_time(SECTOR);
        let program = self.operation_time(PROGRAM);
        let sectors = self.job.count / self.job.size;
        sectors as u64 * erase + self.job.count as u64 * program
    }

    // The bill of a job's counts and sum, and the number that the loader stopped with.
    fn bill(self, t: Tally, sum: u16, answer: u32) -> Bill
        ensures { result ≡ bill_of self.job t sum answer }
    {
        Bill {
            saved: self.time().saturating_sub(t.time),
            spent: t.time,
            erases: t.erases,
            programs: t.programs,
            polls: t.polls,
            scans: t.scans,
            confirms: t.confirms,
            sum,
            answer,
        }
    }
}

// The second call: sends only the first k cycles of the job, all if fewer.
pub fn load_first(
    part: u32,
    cells: &mut [u16],
    first: u32,
    image: &[u16],
    wp: bool,
    p: u32,
    k: u64,
) -> Report
    ensures { (result ≡ (report_of part cells.old first image.now wp p k).report) × (cells.new ≡ (report_of part cells.old first image.now wp p k).cells) }
{
    match request::check_job(part, cells.len(), first, image, wp, p) {
        Ok(row) => {
            let job = job_on(row, part, first, image.len() as u32, wp, p);
            write_report(run(cells, &Work { job, image }, k.min(MOST_CYCLES)))
        }
        Err(refusal) => Report::from(refusal),
    }
}

// The job: loads the image from first on, and writes the bill.
pub fn load(part: u32, cells: &mut [u16], first: u32, image: &[u16], wp: bool, p: u32) -> Bill
    ensures { (result ≡ (load_of part cells.old first image.now wp p).bill) × (cells.new ≡ (load_of part cells.old first image.now wp p).cells) }
{
    match request::check_job(part, cells.len(), first, image, wp, p) {
        Ok(row) => {
            let job = job_on(row, part, first, image.len() as u32, wp, p);
            let ended = run(&mut *cells, &Work { job, image }, MOST_CYCLES);
            let from = first as usize;
            let total = values::sum(&cells[from..from + image.len()], row.width);
            Full { job }.bill(ended.held.tally, total, ended.answer)
        }
        Err(refusal) => Bill::from(refusal),
    }
}
