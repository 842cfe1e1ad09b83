// Commands: those a part has, their table times, and how many polls they take.
ghost use Rattle.std.specs.Prelude.{◌≡◌};
ghost use Rattle.parts.specs.Time.{has_command, is_interval, rounded_up, time_of};

use crate::Row;
use crate::names::{BLOCK, CHIP};

// Whether p is a polling interval: 1 to 1,000 µs.
#[tactic(auto, unfolding(crate::specs::Time::is_interval), using(crate::proofs::Rules::tests))]
pub fn is_interval(p: u32) -> bool
    ensures { result ≡ is_interval p }
{
    1 <= p && p <= 1000
}

// T / p rounded up; 0 for no p.
#[tactic(auto, unfolding(crate::specs::Time::rounded_up), using(crate::proofs::Rules::tests))]
pub fn rounded_up(time: u32, p: u32) -> u32
    ensures { result ≡ rounded_up time p }
{
    if p == 0 {
        return 0;
    }
    time.div_ceil(p)
}

impl Row {
    // Whether the part has a command: block only where it has blocks.
    #[tactic(auto, unfolding(crate::specs::Time::has_command), using(crate::proofs::Rules::tests))]
    pub fn has_command(self, command: u32) -> bool
        ensures { result ≡ has_command self command }
    {
        command <= CHIP && (command != BLOCK || self.has_blocks())
    }

    // The table time of a command, in the order of their numbers; 0 for none of these.
    #[tactic(auto, unfolding(crate::specs::Time::time_of))]
    pub fn time(self, command: u32) -> u32
        ensures { result ≡ time_of self command }
    {
        let times = [self.program, self.erase, self.erase, self.chip];
        times.get(command as usize).copied().unwrap_or(0)
    }
}
