// Drives the compiled driver against replies that no good chip gives. A line a run: the part, the command, the number of
// the replies (as `reply` has them), then the ending, the cycles sent and the polls in the result; and once more the
// ending and the polls, of a step after the end.
#![tactic(auto)]

use driver::Step;
use parts::names::BIT_7;
use std::io;

// A command as it is started, and the value that its confirming read must equal.
#[derive(Clone, Copy)]
struct Task {
    part: u32,
    command: u32,
    address: u32,
    data: u16,
    p: u32,
    wanted: u16,
}

impl Task {
    // A task of its members, in their order.
    fn new(part: u32, command: u32, address: u32, data: u16, p: u32, wanted: u16) -> Task {
        Task {
            part,
            command,
            address,
            data,
            p,
            wanted,
        }
    }
}

// The wrong bit 7, and nothing else.
fn wrong_bit(wanted: u16) -> u16 {
    (1 - wanted / BIT_7 % 2) * BIT_7
}

// The right bit 7, in a word that differs in its lowest bit.
fn wrong_word(wanted: u16) -> u16 {
    wanted ^ 1
}

// What is replied to the n-th cycle: 0 never the wanted bit 7, 1 always 0, 2 always FFFFH, 3 now 0 and
// now FFFFH, 4 the right bit 7 and a wrong word, 5 the wanted value at once.
fn reply(replies: u32, wanted: u16, n: u32) -> u16 {
    match replies {
        0 => wrong_bit(wanted),
        1 => 0,
        2 => 0xffff,
        3 => (n % 2) as u16 * 0xffff,
        4 => wrong_word(wanted),
        _ => wanted,
    }
}

// Prints the line of a run that ended at a step.
fn print_run(rt: &impl Print, t: Task, replies: u32, cycles: u32, last: Step) -> io::Result<()> {
    let again = last.driver.step(0x1234);
    println!(rt;
        "{} {} {replies} {} {cycles} {} {} {}",
        t.part, t.command, last.answer, last.polls, again.answer, again.polls
    )
}

// Runs a command against replies until the driver names nothing: the longest run has 280,007 cycles.
fn run(rt: &impl Print, t: Task, replies: u32) -> io::Result<()> {
    let mut d = driver::start(t.part, t.command, t.address, t.data, t.p).driver;
    let mut read = 0;
    for n in 0..300000 {
        let s = d.step(read);
        if s.next.is_none() {
            return print_run(rt, t, replies, n, s);
        }
        d = s.driver;
        read = reply(replies, t.wanted, n);
    }
    println!(rt; "no end")
}

// Seven tasks run against each kind of replies, and two that are refused against the last.
fn main(rt: HostRuntime) -> io::Result<()> {
    let tasks = [
        Task::new(0, 0, 5, 0x1234, 10, 0x1234),
        Task::new(3, 0, 524287, 0x80, 1, 0x80),
        Task::new(5, 0, 0, 0xffff, 7, 0xffff),
        Task::new(9, 1, 2053, 0, 1000, 0xffff),
        Task::new(7, 2, 40000, 0, 100, 0xffff),
        Task::new(1, 3, 0xffffffff, 0xffff, 13, 0xff),
        Task::new(8, 3, 0, 0, 1, 0xffff),
    ];
    for task in tasks {
        for replies in 0..6 {
            run(&rt, task, replies)?;
        }
    }
    for task in [Task::new(11, 0, 0, 0, 1, 0), Task::new(3, 2, 0, 0, 1, 0)] {
        run(&rt, task, 5)?;
    }
    Ok(())
}
