// The loader for a real socket: begun once, and then turn by turn given the value last read. It has a bus, and no cells.
ghost use Rattle.std.specs.Prelude.{◌≡◌};
ghost use Rattle.job.specs.Loading.{asked_for, begin_load, is_ending, job_turn, loader_in_range, load_turn, load_turn_of, loading, moved_to, new_driver, progress_in_range, same_asked, stops_with, taken};

use crate::bill::job_on;
use crate::loader::{Job, Loader, Place, Purpose, Stage, Task, Turn, Work};
use device::Cycle;
use driver::{Driver, Phase};
use parts::Refusal;
use parts::names::{PROGRAM, SECTOR};

// How far a job is: no cycle named yet; within; or ended with its number.
#[derive(Clone, Copy)]
pub enum Progress {
    Waiting,
    Within(Loader),
    Over(u32),
}

// A job under way: what was asked, how many image values, and how far it is.
#[derive(Clone, Copy)]
pub struct Loading {
    pub part: u32,
    pub first: u32,
    pub count: u32,
    pub wp: bool,
    pub p: u32,
    pub progress: Progress,
}

// A begin's answer: 0 or the refusal, and the job.
// kept: what may not change: beside a refusal stands the all-zero job (`begin_load`, demands' `begin-refuses`, `zero-refused`)
#[derive(Clone, Copy)]
pub struct Begun {
    pub answer: u32,
    pub loading: Loading,
}

// A turn's answer: 0 with a cycle; 0, 11 or 12 at the end; or a refusal. Then the job handed back, and the cycle,
// if one is named, at the job's WP# level, and why it is sent.
// kept: what may not change: the job stands beside each answer (`turn`, demands' Socket)
#[derive(Clone, Copy)]
pub struct LoadTurn {
    pub answer: u32,
    pub loading: Loading,
    pub next: Option<(Purpose, Cycle)>,
}

// A job that has named nothing yet.
fn waiting(part: u32, first: u32, count: u32, wp: bool, p: u32) -> Loading
    ensures { result ≡ loading part first count wp p Progress.Waiting }
{
    Loading {
        part,
        first,
        count,
        wp,
        p,
        progress: Progress::Waiting,
    }
}

// Begins a job to which no cells are lent: refusals 1, 10, 6, 7, 8, 9. A refused begin hands back the all-zero state.
#[tactic(auto, unfolding(crate::specs::Loading::begin_load), using(crate::proofs::InRange::begun))]
pub fn begin_load(part: u32, first: u32, image: &[u16], wp: bool, p: u32) -> Begun
    ensures { result ≡ begin_load part first image.now wp p }
{
    match request::check_begin(part, first, image, wp, p) {
        Ok(_) => Begun {
            answer: 0,
            loading: waiting(part, first, image.len() as u32, wp, p),
        },
        Err(refusal) => Begun {
            answer: refusal.number(),
            loading: waiting(0, 0, 0, false, 0),
        },
    }
}

// Whether a number is one that a job ends with.
#[tactic(auto, unfolding(crate::specs::Loading::is_ending), using(parts::proofs::Rules::tests))]
pub fn is_ending(n: u32) -> bool
    ensures { result ≡ is_ending n }
{
    n == 0 || n == Refusal::GaveUp.number() || n == Refusal::Differs.number()
}

// Whether two drivers ask for the same.
#[tactic(auto, unfolding(crate::specs::Loading::same_asked), using(parts::proofs::Rules::tests))]
fn same_asked(d: Driver, e: Driver) -> bool
    ensures { result ≡ same_asked d e }
{
    let same = Driver {
        phase: d.phase,
        count: d.count,
        ..e
    };
    d == same
}

impl Job {
    // The driver of a command at an address.
    fn driver_of(self, command: u32, address: u32, data: u16) -> Driver
        ensures { result ≡ new_driver self command address «data» }
    {
        Driver {
            part: self.part,
            command,
            address,
            data,
            p: self.p,
            phase: Phase::Writing,
            count: 0,
        }
    }
}

impl<'a> Place<'a> {
    // What a task asks a driver for at the cell.
    fn asked_for(&self, task: Task) -> Driver
        ensures { result ≡ asked_for self.now.work.job self.now.work.image.now task self.now.base self.now.at }
    {
        let job = self.work.job;
        let address = job.first + (self.base + self.at);
        let data = self.work.image[(self.base + self.at) as usize];
        match task {
            Task::Erasing => job.driver_of(SECTOR, job.first + self.base, 0),
            Task::Filling | Task::Burning => job.driver_of(PROGRAM, address, data),
        }
    }
}

impl Loader {
    // Whether the loader is one that its job can have: in it, at a sector's first cell, and a driver asks for what its task does.
    #[tactic(auto, unfolding(crate::specs::Loading::loader_in_range), using(parts::proofs::Rules::tests))]
    fn is_in_range(self, work: &Work) -> bool
        ensures { result ≡ loader_in_range work.now.job work.now.image.now self }
    {
        let Some(place) = self.place(work) else {
            return false;
        };
        if self.base % work.job.size != 0 {
            return false;
        }
        match self.stage {
            Stage::Scanning | Stage::Looking => true,
            Stage::Driving(task, d) => same_asked(d, place.asked_for(task)),
        }
    }
}

// Whether a job can be as far as this.
fn progress_in_range(work: &Work, progress: Progress) -> bool
    ensures { result ≡ progress_in_range work.now.job work.now.image.now progress }
{
    match progress {
        Progress::Waiting => true,
        Progress::Within(loader) => loader.is_in_range(work),
        Progress::Over(n) => is_ending(n),
    }
}

impl Loading {
    // The same job, as far as this.
    fn moved_to(self, progress: Progress) -> Loading
        ensures { result ≡ moved_to self progress }
    {
        Loading { progress, ..self }
    }

    // A number and no cycle, the job handed back as it came.
    fn answers(self, n: u32) -> LoadTurn
        ensures { result ≡ load_turn n self None }
    {
        LoadTurn {
            answer: n,
            loading: self,
            next: None,
        }
    }

    // The end; or the refusal of an operation's start.
    #[tactic(auto, unfolding(crate::specs::Loading::stops_with))]
    fn stops_with(self, n: u32) -> LoadTurn
        ensures { result ≡ stops_with self n }
    {
        if is_ending(n) {
            return self.moved_to(Progress::Over(n)).answers(n);
        }
        self.answers(n)
    }

    // What the loader's turn comes to.
    fn taken(self, turn: Turn) -> LoadTurn
        ensures { result ≡ taken self turn }
    {
        match turn {
            Turn::Play(loader, purpose, cycle) => LoadTurn {
                answer: 0,
                loading: self.moved_to(Progress::Within(loader)),
                next: Some((purpose, cycle)),
            },
            Turn::Stop(n) => self.stops_with(n),
        }
    }

    // A turn of the job that the state is of.
    #[tactic(auto, unfolding(crate::specs::Loading::job_turn))]
    fn job_turn(self, work: &Work, seen: &mut [u16; 4096], read: u16) -> LoadTurn
        ensures { (result ≡ (job_turn self work.now.job work.now.image.now seen.old read).turn) × (seen.new ≡ (job_turn self work.now.job work.now.image.now seen.old read).seen) }
    {
        if !progress_in_range(work, self.progress) {
            return self.answers(Refusal::BadState.number());
        }
        // kept: the C interface: how far a job is crosses C as numbers between two turns, which a closure could not
        match self.progress {
            Progress::Waiting => self.taken(work.next_sector(0)),
            Progress::Within(loader) => self.taken(loader.turn(work, seen, read)),
            Progress::Over(n) => self.stops_with(n),
        }
    }

    // Given the value last read, names the next cycle or the end: 5 for a state out of range.
    // kept: the C interface: the values seen are lent by C, which knows no other length
    #[tactic(auto, unfolding(crate::specs::Loading::load_turn_of, crate::specs::Loading::loading_in_range), using(crate::proofs::InRange::fits))]
    pub fn turn(self, image: &[u16], seen: &mut [u16; 4096], read: u16) -> LoadTurn
        ensures { (result ≡ (load_turn_of self image.now seen.old read).turn) × (seen.new ≡ (load_turn_of self image.now seen.old read).seen) }
    {
        let checked = request::check_standing(self.part, self.first, self.count, self.wp, self.p);
        match checked {
            Ok(row) if self.count as usize == image.len() => {
                let job = job_on(row, self.part, self.first, self.count, self.wp, self.p);
                self.job_turn(&Work { job, image }, seen, read)
            }
            _ => self.answers(Refusal::BadState.number()),
        }
    }
}
