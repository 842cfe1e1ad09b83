// The driver: a machine that hands its state back from each step.
ghost use Rattle.std.specs.Prelude.{◌≡◌, ◌<◌, ◌≤◌, IfSome, eqb, is_some, leb, ltb};
ghost use Rattle.parts.specs.Table.{row_of};
ghost use Rattle.driver.specs.Machine.{address_of, after_write, begun, bit_seven, bit_wanted, confirming_of, confirms, count_fits, data_of, in_range, matches, most_polls, moved, no_driver, polling_of, polls, some_up_to, start_of, start_writing, step, step_of, value_wanted, writing_of};
ghost use Rattle.driver.specs.Fits.{CodesAndTimesFit};
ghost use Rattle.driver.specs.Writes.{write_count};

use crate::refusals::check_start;
use crate::writes::{Asked, write_count};
use device::Action;
use parts::names::{BIT_7, CHIP, PROGRAM};
use parts::{Refusal, Row};

// The µs from the last poll to the confirming read: the word is there a microsecond after bit 7.
pub const CONFIRM_AFTER: u32 = 1;

// The writes are named one by one; then polls; then the confirming read; then one of three ends.
#[derive(Clone, Copy, Debug, PartialEq, Eq)]
pub enum Phase {
    Writing,
    Polling,
    Confirming,
    Done,
    GaveUp,
    Differs,
}

// What is asked, and how far it is: the writes named so far, and from the polling on the polls.
#[derive(Clone, Copy, PartialEq, Eq, Debug)]
pub struct Driver {
    pub part: u32,
    pub command: u32,
    pub address: u32,
    pub data: u16,
    pub p: u32,
    pub phase: Phase,
    pub count: u32,
}

// A start: 0 or the refusal, and the driver.
// kept: what may not change: a refused start hands back the all-zero driver, which an Err would not (`start`, demands' `start-refuses`, `refused-start-steps`)
#[derive(Clone, Copy)]
pub struct Started {
    pub answer: u32,
    pub driver: Driver,
}

// A step's answer: 0 with a cycle; 0, 11 or 12 at the end; or the refusal 5. Then the driver
// handed back, the cycle, if one is named (the µs since the last one and what it does; the caller
// sets WP#), and the polls named so far.
// kept: what may not change: driver and polls stand beside each answer, 5 too (`step`, demands' `step-refuses`, driver's `Ended`, `Meaning`)
#[derive(Clone, Copy)]
pub struct Step {
    pub answer: u32,
    pub driver: Driver,
    pub next: Option<(u32, Action)>,
    pub polls: u32,
}

// The operation's address: 0 for chip.
fn address_of(command: u32, address: u32) -> u32
    ensures { result ≡ address_of command address }
{
    if command == CHIP {
        return 0;
    }
    address
}

// The data that counts: an erase ignores it.
fn data_of(command: u32, data: u16) -> u16
    ensures { result ≡ data_of command «data» }
{
    if command == PROGRAM {
        return data;
    }
    0
}

// Bit 7.
fn bit_seven(x: u16) -> u16
    ensures { result ≡ bit_seven x }
{
    x / BIT_7 % 2
}

// The bit 7 that ends the polling.
fn bit_wanted(command: u32, data: u16) -> u16
    ensures { result ≡ bit_wanted command «data» }
{
    if command == PROGRAM {
        return bit_seven(data);
    }
    1
}

// A driver that has named nothing yet.
fn begin(part: u32, command: u32, address: u32, data: u16, p: u32) -> Driver
    ensures { result ≡ begun part command address «data» p }
{
    Driver {
        part,
        command,
        address: address_of(command, address),
        data: data_of(command, data),
        p,
        phase: Phase::Writing,
        count: 0,
    }
}

// No driver: the all-zero state.
fn no_driver() -> Driver
    ensures { result ≡ no_driver }
{
    begin(0, 0, 0, 0, 0)
}

// Starts a command, polled every p µs: refusals 1, 10, 14, 3, 4. A refused start hands back the all-zero state.
#[tactic(auto, unfolding(crate::specs::Machine::start_of), using(crate::proofs::Begins::starts))]
pub fn start(part: u32, command: u32, address: u32, data: u16, p: u32) -> Started
    ensures { result ≡ start_of part command address «data» p }
{
    match check_start(begin(part, command, address, data, p)) {
        Ok(checked) => Started {
            answer: 0,
            driver: checked.driver,
        },
        Err(refusal) => Started {
            answer: refusal.number(),
            driver: no_driver(),
        },
    }
}

// Starts a command and names its first write at once: the same refusals.
#[tactic(auto, unfolding(crate::specs::Machine::start_writing, crate::specs::Machine::start_of), using(crate::proofs::Begins::writing))]
pub fn start_writing(part: u32, command: u32, address: u32, data: u16, p: u32) -> Step
    ensures { result ≡ start_writing part command address «data» p }
{
    match check_start(begin(part, command, address, data, p)) {
        Ok(checked) => checked.write_on(),
        Err(refusal) => no_driver().end(Phase::Writing, refusal.number()),
    }
}

// A driver whose start was checked, with its part's row: what its next step is found by.
#[derive(Clone, Copy)]
pub(crate) struct Checked {
    pub driver: Driver,
    pub row: Row,
    ghost fits: { CodesAndTimesFit row },
    ghost narrow: { row.width ≤ 16 },
    ghost interval: { 0 < driver.p },
}

impl Checked {
    // Whether n polls are fewer than the most, 2N: found with no division.
    #[tactic(auto, using(crate::proofs::Polls::left))]
    fn polls_left(self, n: u32) -> bool
        ensures { result ≡ ltb n (most_polls self.row self.driver.command self.driver.p) }
    {
        let passed = (n / 2) as u64 * self.driver.p as u64;
        passed < self.row.time(self.driver.command) as u64
    }

    // Whether the count is at most 2N.
    #[tactic(auto, using(crate::proofs::Polls::left))]
    fn polls_fit(self) -> bool
        ensures { result ≡ leb self.driver.count (most_polls self.row self.driver.command self.driver.p) }
    {
        let n = self.driver.count;
        n == 0 || self.polls_left(n - 1)
    }

    // Whether the count is 1 to 2N.
    #[tactic(auto, using(parts::proofs::Rules::tests))]
    fn some_polls(self) -> bool
        ensures { result ≡ some_up_to (most_polls self.row self.driver.command self.driver.p) self.driver.count }
    {
        0 < self.driver.count && self.polls_fit()
    }

    // Whether the count is 2N.
    #[tactic(auto, using(crate::proofs::Polls::left))]
    fn all_polls(self) -> bool
        ensures { result ≡ eqb self.driver.count (most_polls self.row self.driver.command self.driver.p) }
    {
        !self.polls_left(self.driver.count) && self.polls_fit()
    }

    // Whether so many writes or polls fit the phase.
    fn count_fits(self) -> bool
        ensures { result ≡ count_fits self.driver.phase (write_count self.driver.command) (most_polls self.row self.driver.command self.driver.p) self.driver.count }
    {
        match self.driver.phase {
            Phase::Writing => self.driver.count < write_count(self.driver.command),
            Phase::Polling => self.polls_fit(),
            Phase::Confirming => self.some_polls(),
            Phase::Done => self.some_polls(),
            Phase::GaveUp => self.all_polls(),
            Phase::Differs => self.some_polls(),
        }
    }

    // Names the next write.
    // kept: no plainer: that a write is left holds in one phase only, so in no type; so of `after_write` and `nth_write`
    #[tactic(auto, unfolding(crate::specs::Machine::writing_of))]
    fn write_on(self) -> Step
        requires { self.driver.count < write_count self.driver.command }
        ensures { result ≡ writing_of self.row self.driver }
    {
        let asked = Asked {
            row: self.row,
            command: self.driver.command,
            address: self.driver.address,
            data: self.driver.data,
        };
        let w = asked.nth_write(self.driver.count);
        let write = Action::Write(w.address, w.data);
        Step {
            answer: 0,
            driver: self.driver.after_write(),
            next: Some((0, write)),
            polls: 0,
        }
    }

    // Polls on, confirms or gives up.
    #[tactic(auto, unfolding(crate::specs::Machine::polling_of), using(crate::proofs::Ready::counts))]
    fn poll_on(self, read: u16) -> Step
        ensures { result ≡ polling_of self.row self.driver read }
    {
        let driver = self.driver;
        if driver.is_match(read) {
            return driver.confirm();
        }
        if self.polls_left(driver.count) {
            return driver.poll();
        }
        driver.end(Phase::GaveUp, Refusal::GaveUp.number())
    }

    // What the confirming read must equal.
    fn value_wanted(self) -> u16
        ensures { result ≡ value_wanted self.row self.driver.command self.driver.«data» }
    {
        if self.driver.command == PROGRAM {
            return self.driver.data;
        }
        parts::blank(self.row.width)
    }

    // Compares the confirming read.
    #[tactic(auto, unfolding(crate::specs::Machine::confirming_of), using(parts::proofs::Rules::tests))]
    fn compare(self, read: u16) -> Step
        ensures { result ≡ confirming_of self.row self.driver read }
    {
        if parts::value(self.row.width, read) == self.value_wanted() {
            return self.driver.end(Phase::Done, 0);
        }
        self.driver.end(Phase::Differs, Refusal::Differs.number())
    }
}

impl Driver {
    // The same driver in a phase, with a count.
    fn moved_to(self, phase: Phase, count: u32) -> Driver
        ensures { result ≡ moved self phase count }
    {
        Driver {
            phase,
            count,
            ..self
        }
    }

    // The end in a phase, with its number.
    fn end(self, phase: Phase, number: u32) -> Step
        ensures { result ≡ step number (moved self phase self.count) None self.count }
    {
        Step {
            answer: number,
            driver: self.moved_to(phase, self.count),
            next: None,
            polls: self.count,
        }
    }

    // The driver once it has named a write.
    #[tactic(auto, unfolding(crate::specs::Machine::after_write), using(crate::proofs::Ready::counts, parts::proofs::Rules::tests))]
    fn after_write(self) -> Driver
        requires { self.count < write_count self.command }
        ensures { result ≡ after_write self }
    {
        let n = self.count + 1;
        if n < write_count(self.command) {
            return self.moved_to(Phase::Writing, n);
        }
        self.moved_to(Phase::Polling, 0)
    }

    // A read of the operation's address.
    fn look(self) -> Action
        ensures { result ≡ Action.Read (address_of self.command self.address) }
    {
        Action::Read(address_of(self.command, self.address))
    }

    // Names one more poll.
    fn poll(self) -> Step
        requires { self.count < 280000 }
        ensures { result ≡ polls self }
    {
        let n = self.count + 1;
        let action = self.look();
        Step {
            answer: 0,
            driver: self.moved_to(Phase::Polling, n),
            next: Some((self.p, action)),
            polls: n,
        }
    }

    // Names the confirming read.
    #[tactic(auto, unfolding(crate::specs::Machine::confirm_after))]
    fn confirm(self) -> Step
        ensures { result ≡ confirms self }
    {
        let polls = self.count;
        let action = self.look();
        Step {
            answer: 0,
            driver: self.moved_to(Phase::Confirming, polls),
            next: Some((CONFIRM_AFTER, action)),
            polls,
        }
    }

    // Whether the reply to a poll shows the wanted bit 7.
    #[tactic(auto, unfolding(crate::specs::Machine::matches), using(parts::proofs::Rules::tests))]
    fn is_match(self, read: u16) -> bool
        ensures { result ≡ matches self read }
    {
        0 < self.count && bit_seven(read) == bit_wanted(self.command, self.data)
    }

    // The driver with its part's row, where the state is in range.
    #[tactic(auto, unfolding(crate::specs::Machine::in_range), using(parts::proofs::Told::refused))]
    fn checked(self) -> Option<Checked>
        ensures variant { is_some result ≡ in_range self }
        ensures row { IfSome result (λ c. c.row ≡ row_of self.part) }
        ensures driver { IfSome result (λ c. c.driver ≡ self) }
    {
        let checked = check_start(self).ok()?;
        if !checked.count_fits() {
            return None;
        }
        Some(checked)
    }

    // Given the value last read, names the next cycle or the end: 5 for a state out of range.
    #[tactic(auto, unfolding(crate::specs::Machine::step_of), using(crate::proofs::Ready::counts))]
    pub fn step(self, read: u16) -> Step
        ensures { result ≡ step_of self read }
    {
        let Some(checked) = self.checked() else {
            return Step {
                answer: Refusal::BadState.number(),
                driver: self,
                next: None,
                polls: 0,
            };
        };
        // kept: the C interface: a phase crosses C as a number between two steps, which a closure could not
        match self.phase {
            Phase::Writing => checked.write_on(),
            Phase::Polling => checked.poll_on(read),
            Phase::Confirming => checked.compare(read),
            Phase::Done => self.end(Phase::Done, 0),
            Phase::GaveUp => self.end(Phase::GaveUp, Refusal::GaveUp.number()),
            Phase::Differs => self.end(Phase::Differs, Refusal::Differs.number()),
        }
    }
}
