// The writes of a command: plain values of U1, U2 and the codes.
ghost use Rattle.std.specs.Prelude.{◌≡◌, ◌<◌, eqb};
ghost use Rattle.parts.specs.Pick.{pick};
ghost use Rattle.driver.specs.Fits.{CodesAndTimesFit};
ghost use Rattle.driver.specs.Writes.{command_writes, kth_write, last_write, nth_write, six_places, told_write, told_writes, write, write_count, writes_of};

use crate::refusals::check_command;
use commands::Write;
use parts::names::{BLOCK, PROGRAM, SECTOR};
use parts::{Refusal, Row};

// One command's writes: how many they are, and the writes, unused places zero.
// kept: a rule of the project: document 01 names this form, six writes in an array with their count, and there is no heap
#[derive(Clone, Copy)]
pub struct Writes {
    pub count: u32,
    pub writes: [Write; 6],
}

// How many writes a command has.
#[tactic(auto, unfolding(crate::specs::Writes::write_count), using(parts::proofs::Rules::tests))]
pub(crate) fn write_count(command: u32) -> u32
    ensures { result ≡ write_count command }
{
    if command == PROGRAM {
        return 4;
    }
    6
}

// A command that was checked on its part, with the part's row.
#[derive(Clone, Copy)]
pub(crate) struct Asked {
    pub row: Row,
    pub command: u32,
    pub address: u32,
    pub data: u16,
    ghost fits: { CodesAndTimesFit row },
}

impl Asked {
    // AAH at U1.
    fn unlock_one(self) -> Write
        ensures { result ≡ write self.row.u1 0xaa }
    {
        Write {
            address: self.row.u1,
            data: 0xaa,
        }
    }

    // 55H at U2.
    fn unlock_two(self) -> Write
        ensures { result ≡ write self.row.u2 0x55 }
    {
        Write {
            address: self.row.u2,
            data: 0x55,
        }
    }

    // A0H at U1 arms program, 80H at U1 goes on to an erase.
    #[tactic(auto, using(parts::proofs::Rules::tests))]
    fn third_write(self) -> Write
        ensures { result ≡ write self.row.u1 (pick (eqb self.command 0) 0xa0 0x80) }
    {
        if self.command == PROGRAM {
            return Write {
                address: self.row.u1,
                data: 0xa0,
            };
        }
        Write {
            address: self.row.u1,
            data: 0x80,
        }
    }

    // The write that starts the operation.
    #[tactic(auto, unfolding(crate::specs::Writes::last_write), using(parts::proofs::Rules::tests))]
    fn last_write(self) -> Write
        ensures { result ≡ last_write self.row self.command self.address self.«data» }
    {
        let address = self.address;
        if self.command == PROGRAM {
            return Write {
                address,
                data: self.data,
            };
        }
        if self.command == SECTOR {
            let code = self.row.sector_code as u16;
            return Write {
                address,
                data: code,
            };
        }
        if self.command == BLOCK {
            let code = self.row.block_code as u16;
            return Write {
                address,
                data: code,
            };
        }
        Write {
            address: self.row.u1,
            data: 0x10,
        }
    }

    // The writes of a command in six places.
    #[tactic(auto, unfolding(crate::specs::Writes::writes_of, crate::specs::Writes::write_count), using(parts::proofs::Rules::tests))]
    fn writes(self) -> Writes
        ensures { result ≡ record { count = write_count self.command; writes = six_places (writes_of self.row self.command self.address self.«data») } }
    {
        let none = Write::default();
        let one = self.unlock_one();
        let two = self.unlock_two();
        let three = self.third_write();
        let last = self.last_write();
        if self.command == PROGRAM {
            return Writes {
                count: 4,
                writes: [one, two, three, last, none, none],
            };
        }
        Writes {
            count: 6,
            writes: [one, two, three, one, two, last],
        }
    }

    // The k-th of a command's writes.
    #[tactic(auto, using(crate::proofs::Nth::places, crate::proofs::Ready::counts))]
    pub(crate) fn nth_write(self, k: u32) -> Write
        requires { k < write_count self.command }
        ensures { result ≡ nth_write self.row self.command self.address self.«data» k }
    {
        if k + 1 == write_count(self.command) {
            return self.last_write();
        }
        match k {
            0 => self.unlock_one(),
            1 => self.unlock_two(),
            2 => self.third_write(),
            3 => self.unlock_one(),
            _ => self.unlock_two(),
        }
    }
}

// One command's writes together: refusals 1, 14, 3, 4.
#[tactic(auto, unfolding(crate::specs::Writes::command_writes), using(parts::proofs::Told::refused))]
pub fn command_writes(part: u32, command: u32, address: u32, data: u16) -> Result<Writes, Refusal>
    ensures { told_writes result ≡ command_writes part command address «data» }
{
    let asked = check_command(part, command, address, data)?;
    Ok(asked.writes())
}

// The k-th write of a command, from 0: refusals 1, 14, 3, 4, 15.
#[tactic(auto, unfolding(crate::specs::Writes::kth_write), using(parts::proofs::Told::refused, parts::proofs::Rules::tests))]
pub fn kth_write(part: u32, command: u32, address: u32, data: u16, k: u32) -> Result<Write, Refusal>
    ensures { told_write result ≡ kth_write part command address «data» k }
{
    let asked = check_command(part, command, address, data)?;
    if write_count(command) <= k {
        return Err(Refusal::NoEntry);
    }
    Ok(asked.nth_write(k))
}
