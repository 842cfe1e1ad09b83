// The loader: a machine by value over replies. It never sees the cells: what it decides, it decides from what was read.
ghost use Rattle.std.specs.Prelude.{◌≡◌, ◌+◌, ◌≤◌, ◌<◌, length, eqb, is_some, IfSome};
ghost use Rattle.parts.specs.Pick.{pick};
ghost use Rattle.job.specs.Loader.{afterwards, begin_of, burn_of, carry_out, decide_of, driven_of, fill_of, first_step, goes_on, in_job, look_of, next_sector, purpose_of, reads_cell, scanned_of, seen_of, stage_of, turn_of};
ghost use Rattle.job.specs.Fits.{JobFits};

use device::{Action, Cycle};
use driver::{Driver, Phase, Step};
use parts::names::{PROGRAM, SECTOR};
use parts::{Refusal, Row};
use values::Decision;

// A job that was not refused: its part and row, the first address, the number of image values, WP# and p.
#[derive(Clone, Copy)]
pub struct Job {
    pub part: u32,
    pub row: Row,
    pub size: u32,
    pub first: u32,
    pub count: u32,
    pub wp: bool,
    pub p: u32,
}

// What an operation is for: a sector is erased, then filled; or a cell is burnt where it differs.
#[derive(Clone, Copy)]
pub enum Task {
    Erasing,
    Filling,
    Burning,
}

// What is done in a sector: it is read; unerased, looked at again; or an operation is driven.
#[derive(Clone, Copy)]
pub enum Stage {
    Scanning,
    Looking,
    Driving(Task, Driver),
}

// The stage, the image's index of the sector's first cell, and the cell in the sector.
#[derive(Clone, Copy)]
pub struct Loader {
    pub stage: Stage,
    pub base: u32,
    pub at: u32,
}

// Why a cycle is sent: a scan's read, a write in front of a command's last one, that one, a poll, the confirming read.
#[derive(Clone, Copy)]
pub enum Purpose {
    Scan,
    Lead,
    Begin(u32),
    Poll,
    Confirm,
}

// The next cycle with its purpose, or the end: 0, or what a driver ended with.
// kept: no plainer: a Result's Err would be the end of every job, and Stop(0) its success; the number is the one that C is answered
#[derive(Clone, Copy)]
pub enum Turn {
    Play(Loader, Purpose, Cycle),
    Stop(u32),
}

impl Job {
    // A cell of a sector is read.
    fn reads_cell(self, stage: Stage, base: u32, at: u32) -> Turn
        requires { self.first + (base + at) ≤ 4294967295 }
        ensures { result ≡ reads_cell self stage base at }
    {
        let action = Action::Read(self.first + (base + at));
        let cycle = Cycle {
            elapsed: 0,
            wp: self.wp,
            action,
        };
        let loader = Loader { stage, base, at };
        Turn::Play(loader, Purpose::Scan, cycle)
    }
}

// A job and the image that it loads: it fits that.
#[derive(Clone, Copy)]
pub(crate) struct Work<'a> {
    pub(crate) job: Job,
    pub(crate) image: &'a [u16],
    ghost fits: { JobFits job (length image.now) },
}

impl<'a> Work<'a> {
    // The sector at base is read, if there is one.
    #[tactic(auto, unfolding(crate::specs::Loader::next_sector), using(parts::proofs::Rules::tests))]
    pub(crate) fn next_sector(&self, base: u32) -> Turn
        ensures { result ≡ next_sector self.now.job base }
    {
        if base < self.job.count {
            return self.job.reads_cell(Stage::Scanning, base, 0);
        }
        Turn::Stop(0)
    }
}

// The cell that a loader is at, in a sector of the image.
#[derive(Clone, Copy)]
pub(crate) struct Place<'a> {
    pub(crate) work: Work<'a>,
    pub(crate) base: u32,
    pub(crate) at: u32,
    ghost in_image: { base + work.job.size ≤ work.job.count },
    ghost in_sector: { at < work.job.size },
}

impl<'a> Place<'a> {
    // Another cell of the sector.
    // kept: no plainer: a struct with ghost fields takes no `..`
    fn moved_to(&self, at: u32) -> Place<'a>
        requires { at < self.now.work.job.size }
        ensures work { result.work ≡ self.now.work }
        ensures base { result.base ≡ self.now.base }
        ensures at { result.at ≡ at }
    {
        Place {
            work: self.work,
            base: self.base,
            at,
        }
    }

    // The cells of an unerased sector are read again from one on; then the next sector.
    #[tactic(auto, unfolding(crate::specs::Loader::look_of), using(parts::proofs::Rules::tests))]
    fn look(&self, from: u32) -> Turn
        ensures { result ≡ look_of self.now.work.job self.now.base from }
    {
        if from < self.work.job.size {
            return self.work.job.reads_cell(Stage::Looking, self.base, from);
        }
        self.work.next_sector(self.base + self.work.job.size)
    }

    // An operation at the cell begins with its first write.
    #[tactic(auto, unfolding(crate::specs::Loader::begin_of))]
    fn begin(&self, task: Task, command: u32, data: u16) -> Turn
        ensures { result ≡ begin_of self.now.work.job task self.now.base self.now.at command «data» }
    {
        let address = self.work.job.first + (self.base + self.at);
        let step = driver::start_writing(
            self.work.job.part,
            command,
            address,
            data,
            self.work.job.p,
        );
        self.first_step(task, step)
    }

    // A driver's first step: its cycle, or the refusal of its start.
    fn first_step(&self, task: Task, step: Step) -> Turn
        ensures { result ≡ first_step self.now.work.job task self.now.base self.now.at step }
    {
        match step.next {
            None => Turn::Stop(step.answer),
            Some((elapsed, action)) => self.goes_on(task, step.driver, elapsed, action),
        }
    }

    // The cycle that a driver names.
    fn goes_on(&self, task: Task, driver: Driver, elapsed: u32, action: Action) -> Turn
        ensures { result ≡ goes_on self.now.work.job task self.now.base self.now.at driver elapsed action }
    {
        let purpose = purpose_of(driver, action);
        let cycle = Cycle {
            elapsed,
            wp: self.work.job.wp,
            action,
        };
        let loader = Loader {
            stage: Stage::Driving(task, driver),
            base: self.base,
            at: self.at,
        };
        Turn::Play(loader, purpose, cycle)
    }

    // The next non-blank value of an erased sector from a cell on is programmed; then the next sector.
    // Inlined, since a place that is lent to a call is held in memory: a turn is then of a third more instructions.
    #[inline(always)]
    #[tactic(auto, unfolding(crate::specs::Loader::fill_of), using(crate::proofs::Marks::marks, parts::proofs::Rules::tests))]
    fn fill(&self, from: u32) -> Turn
        requires { from ≤ self.now.work.job.size }
        ensures { result ≡ fill_of self.now.work.job self.now.work.image.now self.now.base from }
    {
        let start = (self.base + from) as usize;
        let end = (self.base + self.work.job.size) as usize;
        let blank = parts::blank(self.work.job.row.width);
        let mark = from as usize + values::leading(&self.work.image[start..end], blank);
        if mark < self.work.job.size as usize {
            let data = self.work.image[self.base as usize + mark];
            return self
                .moved_to(mark as u32)
                .begin(Task::Filling, PROGRAM, data);
        }
        self.work.next_sector(self.base + self.work.job.size)
    }

    // A cell of an unerased sector whose value differs is programmed at once.
    #[tactic(auto, unfolding(crate::specs::Loader::burn_of), using(parts::proofs::Rules::tests))]
    fn burn(&self, reply: u16) -> Turn
        ensures { result ≡ burn_of self.now.work.job self.now.work.image.now self.now.base self.now.at reply }
    {
        let data = self.work.image[(self.base + self.at) as usize];
        if parts::value(self.work.job.row.width, reply) == data {
            return self.look(self.at + 1);
        }
        self.begin(Task::Burning, PROGRAM, data)
    }

    // What a decision asks for is begun: the sector's erase, or its cells are read again.
    fn carry_out(&self, decision: Decision) -> Turn
        ensures { result ≡ carry_out self.now.work.job self.now.base decision }
    {
        match decision {
            Decision::NoErase => self.look(0),
            Decision::SectorErase => self.moved_to(0).begin(Task::Erasing, SECTOR, 0),
        }
    }

    // The sector's decision, from the values seen.
    #[tactic(auto, unfolding(crate::specs::Loader::decide_of))]
    fn decide(&self, seen: &[u16; 4096]) -> Turn
        ensures { result ≡ decide_of self.now.work.job self.now.work.image.now seen.now self.now.base }
    {
        let size = self.work.job.size as usize;
        let image = &self.work.image[self.base as usize..][..size];
        let decision = values::decision_of(&seen[..size], image, self.work.job.row.width);
        self.carry_out(decision)
    }

    // What follows an operation.
    fn then(&self, task: Task) -> Turn
        ensures { result ≡ afterwards self.now.work.job self.now.work.image.now task self.now.base self.now.at }
    {
        match task {
            Task::Erasing => self.fill(0),
            Task::Filling => self.fill(self.at + 1),
            Task::Burning => self.look(self.at + 1),
        }
    }

    // A driver's step: its cycle, or what follows.
    #[tactic(auto, unfolding(crate::specs::Loader::driven_of))]
    fn driven(&self, task: Task, step: Step) -> Turn
        ensures { result ≡ driven_of self.now.work.job self.now.work.image.now task self.now.base self.now.at step }
    {
        match step.next {
            None => self.operation_ended(task, step.answer),
            Some((elapsed, action)) => self.goes_on(task, step.driver, elapsed, action),
        }
    }

    // An operation has ended.
    #[tactic(auto, using(parts::proofs::Rules::tests))]
    fn operation_ended(&self, task: Task, answer: u32) -> Turn
        ensures { result ≡ pick (eqb answer 0) (afterwards self.now.work.job self.now.work.image.now task self.now.base self.now.at) (Turn.Stop answer) }
    {
        if answer == 0 {
            return self.then(task);
        }
        Turn::Stop(answer)
    }

    // The scan goes on to the sector's end, then decides.
    #[tactic(auto, unfolding(crate::specs::Loader::scanned_of), using(parts::proofs::Rules::tests))]
    fn scanned(&self, seen: &[u16; 4096]) -> Turn
        ensures { result ≡ scanned_of self.now.work.job self.now.work.image.now seen.now self.now.base self.now.at }
    {
        if self.at + 1 < self.work.job.size {
            return self
                .work
                .job
                .reads_cell(Stage::Scanning, self.base, self.at + 1);
        }
        self.decide(seen)
    }

    // What a stage does, the reply of a scan being among the values seen.
    fn stage_turn(&self, stage: Stage, seen: &[u16; 4096], reply: u16) -> Turn
        ensures { result ≡ stage_of self.now.work.job self.now.work.image.now seen.now stage self.now.base self.now.at reply }
    {
        // kept: the C interface: a stage crosses C as numbers between two turns, which a closure could not
        match stage {
            Stage::Scanning => self.scanned(seen),
            Stage::Looking => self.burn(reply),
            Stage::Driving(task, driver) => self.driven(task, driver.step(reply)),
        }
    }
}

// Why a driver names a cycle.
fn purpose_of(d: Driver, action: Action) -> Purpose
    ensures { result ≡ purpose_of d.command d.phase action }
{
    let polls = d.phase == Phase::Polling;
    match action {
        Action::Read(_) if polls => Purpose::Poll,
        Action::Read(_) => Purpose::Confirm,
        Action::Write(_, _) if polls => Purpose::Begin(d.command),
        _ => Purpose::Lead,
    }
}

impl Loader {
    // The place that the loader is at, where it is in its job: its sector in the image, its cell in the sector.
    #[tactic(auto, unfolding(crate::specs::Loader::in_job), using(parts::proofs::Rules::tests))]
    pub(crate) fn place<'a>(self, work: &Work<'a>) -> Option<Place<'a>>
        ensures some { is_some result ≡ in_job work.now.job self }
        ensures place { IfSome result (λ p. (p.work ≡ work.now) × (p.base ≡ self.base) × (p.at ≡ self.at)) }
    {
        let job = work.job;
        if self.base as u64 + job.size as u64 > job.count as u64 || self.at >= job.size {
            return None;
        }
        Some(Place {
            work: *work,
            base: self.base,
            at: self.at,
        })
    }

    // A scan's reply is kept among the values seen.
    fn keep(self, seen: &mut [u16; 4096], reply: u16)
        requires { self.at < 4096 }
        ensures { seen.new ≡ seen_of self.stage seen.old self.at reply }
    {
        if matches!(self.stage, Stage::Scanning) {
            seen[self.at as usize] = reply;
        }
    }

    // The turn after a reply.
    #[tactic(auto, unfolding(crate::specs::Loader::turn_of))]
    pub(crate) fn turn(self, work: &Work, seen: &mut [u16; 4096], reply: u16) -> Turn
        ensures { (result ≡ (turn_of work.now.job work.now.image.now seen.old self reply).turn) × (seen.new ≡ (turn_of work.now.job work.now.image.now seen.old self reply).seen) }
    {
        let Some(place) = self.place(work) else {
            return Turn::Stop(Refusal::BadState.number());
        };
        self.keep(seen, reply);
        place.stage_turn(self.stage, seen, reply)
    }
}
