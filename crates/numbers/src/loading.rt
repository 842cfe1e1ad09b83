// The loader for a real socket as plain numbers: its job, its begin and its turn. Any numbers may be given.
ghost use Rattle.std.specs.Prelude.{◌≡◌};
ghost use Rattle.numbers.specs.Loading.{begin_numbers, loading_at, loading_numbers, loading_of, no_driver_numbers, no_turn, progress_at, sending_level, sending_numbers, stage_at, stage_numbers, task_at, task_number, told_turn, turn_numbers, turned_of};

use crate::machine::{CycleNumbers, DriverNumbers, ENDED_DIFFERS, NOTHING_TO_SEND, sent_numbers};
use device::Cycle;
use driver::Driver;
use job::{Begun, LoadTurn, Loader, Loading, Progress, Purpose, Stage, Task};
use parts::Refusal;

// ---- how far a job is
const WAITING: u32 = 0;

const SCANNING: u32 = 1;

const LOOKING: u32 = 2;

const ERASING: u32 = 3;

const FILLING: u32 = 4;

const BURNING: u32 = 5;

const OVER: u32 = 6;

// A job under way as numbers: what was asked, how far it is, the sector and the cell, the driver, and the number of its end.
#[repr(C)]
#[derive(Clone, Copy)]
pub struct LoadingNumbers {
    pub part: u32,
    pub first: u32,
    pub count: u32,
    pub wp: u32,
    pub p: u32,
    pub progress: u32,
    pub base: u32,
    pub at: u32,
    pub driver: DriverNumbers,
    pub ending: u32,
}

// A begin: 0 or the refusal, and the job.
#[repr(C)]
#[derive(Clone, Copy)]
pub struct BeginNumbers {
    pub answer: u32,
    pub loading: LoadingNumbers,
}

// A turn: its answer, the job handed back, the cycle, and WP#'s level at it.
#[repr(C)]
#[derive(Clone, Copy)]
pub struct TurnNumbers {
    pub answer: u32,
    pub loading: LoadingNumbers,
    pub cycle: CycleNumbers,
    pub wp: u32,
}

// No driver.
const NO_DRIVER: DriverNumbers = DriverNumbers {
    part: 0,
    command: 0,
    address: 0,
    data: 0,
    p: 0,
    phase: 0,
    count: 0,
};

// The number of what is driven.
// kept: the C interface: the number by which C knows a task stands by name, among those of how far a job is
fn task_number(task: Task) -> u32
    ensures { result ≡ task_number task }
{
    match task {
        Task::Erasing => ERASING,
        Task::Filling => FILLING,
        Task::Burning => BURNING,
    }
}

// What is driven, of a number: a burn for any but the first two.
#[tactic(auto, unfolding(crate::specs::Loading::task_at))]
fn task_at(n: u32) -> Task
    ensures { result ≡ task_at n }
{
    match n {
        ERASING => Task::Erasing,
        FILLING => Task::Filling,
        _ => Task::Burning,
    }
}

// The numbers of a job that has named nothing yet.
fn waiting_numbers(g: Loading) -> LoadingNumbers
    ensures { result ≡ loading_at g WAITING 0 0 no_driver_numbers 0 }
{
    LoadingNumbers {
        part: g.part,
        first: g.first,
        count: g.count,
        wp: u32::from(g.wp),
        p: g.p,
        progress: WAITING,
        base: 0,
        at: 0,
        driver: NO_DRIVER,
        ending: 0,
    }
}

// The numbers of a job in a sector.
fn sector_numbers(g: Loading, loader: Loader) -> LoadingNumbers
    ensures { result ≡ stage_numbers g loader.stage loader.base loader.at }
{
    let within = LoadingNumbers {
        base: loader.base,
        at: loader.at,
        ..waiting_numbers(g)
    };
    match loader.stage {
        Stage::Scanning => LoadingNumbers {
            progress: SCANNING,
            ..within
        },
        Stage::Looking => LoadingNumbers {
            progress: LOOKING,
            ..within
        },
        Stage::Driving(task, d) => LoadingNumbers {
            progress: task_number(task),
            driver: DriverNumbers::from(d),
            ..within
        },
    }
}

// The numbers of a job under way.
impl From<Loading> for LoadingNumbers {
    ghost from_gives = { λ g n. n ≡ loading_numbers g };

    fn from(g: Loading) -> LoadingNumbers {
        match g.progress {
            Progress::Waiting => waiting_numbers(g),
            Progress::Within(loader) => sector_numbers(g, loader),
            Progress::Over(ending) => LoadingNumbers {
                progress: OVER,
                ending,
                ..waiting_numbers(g)
            },
        }
    }
}

// What is done in a sector, of some numbers.
// kept: no plainer: this and `progress_at` are steps of the impl below, and this is of two arguments
#[tactic(auto, unfolding(crate::specs::Loading::stage_at))]
fn stage_at(progress: u32, driver: DriverNumbers) -> Stage
    ensures { result ≡ stage_at progress driver }
{
    match progress {
        SCANNING => Stage::Scanning,
        LOOKING => Stage::Looking,
        _ => Stage::Driving(task_at(progress), Driver::from(driver)),
    }
}

// How far a job is, of some numbers.
#[tactic(auto, unfolding(crate::specs::Loading::progress_at))]
fn progress_at(n: LoadingNumbers) -> Progress
    ensures { result ≡ progress_at n }
{
    match n.progress {
        WAITING => Progress::Waiting,
        OVER => Progress::Over(n.ending),
        progress => Progress::Within(Loader {
            stage: stage_at(progress, n.driver),
            base: n.base,
            at: n.at,
        }),
    }
}

// The job under way of some numbers.
impl From<LoadingNumbers> for Loading {
    ghost from_gives = { λ n g. g ≡ loading_of n };

    fn from(n: LoadingNumbers) -> Loading {
        Loading {
            part: n.part,
            first: n.first,
            count: n.count,
            wp: 0 < n.wp,
            p: n.p,
            progress: progress_at(n),
        }
    }
}

// The numbers of a begin.
// kept: what may not change: a public function, of which demands' `Unique` speaks
pub fn begin_numbers(b: Begun) -> BeginNumbers
    ensures { result ≡ begin_numbers b }
{
    BeginNumbers {
        answer: b.answer,
        loading: LoadingNumbers::from(b.loading),
    }
}

// The numbers of what a turn names.
impl From<Option<(Purpose, Cycle)>> for CycleNumbers {
    ghost from_gives = { λ x n. n ≡ sending_numbers x };

    fn from(next: Option<(Purpose, Cycle)>) -> CycleNumbers {
        match next {
            None => NOTHING_TO_SEND,
            Some((_, cycle)) => sent_numbers(cycle.elapsed, cycle.action),
        }
    }
}

// WP#'s level at it: 0 where there is none.
fn sending_level(next: Option<(Purpose, Cycle)>) -> u32
    ensures { result ≡ sending_level next }
{
    match next {
        None => 0,
        Some((_, cycle)) => u32::from(cycle.wp),
    }
}

// The numbers of a turn that is not refused.
fn told_turn(t: LoadTurn) -> TurnNumbers
    ensures { result ≡ told_turn t }
{
    TurnNumbers {
        answer: t.answer,
        loading: LoadingNumbers::from(t.loading),
        cycle: CycleNumbers::from(t.next),
        wp: sending_level(t.next),
    }
}

// A refused turn: the numbers as they came, and no cycle.
fn no_turn(answer: u32, given: LoadingNumbers) -> TurnNumbers
    ensures { result ≡ no_turn answer given }
{
    TurnNumbers {
        answer,
        loading: given,
        cycle: NOTHING_TO_SEND,
        wp: 0,
    }
}

// The numbers of a turn: one that is neither under way nor at an end is refused.
// kept: no plainer: of two arguments, which From has not
#[tactic(auto, unfolding(crate::specs::Loading::turn_numbers))]
fn turn_numbers(given: LoadingNumbers, t: LoadTurn) -> TurnNumbers
    ensures { result ≡ turn_numbers given t }
{
    if job::is_ending(t.answer) {
        return told_turn(t);
    }
    no_turn(t.answer, given)
}

// Given the value last read, names the next cycle or the end: 5 for numbers that are no state in range.
#[tactic(auto, unfolding(crate::specs::Loading::turned_of))]
pub fn turned(
    loading: LoadingNumbers,
    image: &[u16],
    seen: &mut [u16; 4096],
    read: u16,
) -> TurnNumbers
    ensures { (result ≡ (turned_of loading image.now seen.old read).turn) × (seen.new ≡ (turned_of loading image.now seen.old read).seen) }
{
    if OVER < loading.progress || ENDED_DIFFERS < loading.driver.phase {
        return no_turn(Refusal::BadState.number(), loading);
    }
    turn_numbers(loading, Loading::from(loading).turn(image, seen, read))
}
