// Random words, the same at each run: what the programs that are timed load.
#![tactic(auto)]

ghost use Rattle.std.specs.Prelude.{◌≡◌, ◌+◌, ◌*◌, ◌%◌, ◌/◌};

// Where a row of random words is: a number below 2,147,483,648 once a word is taken.
#[derive(Drop)]
pub struct Random {
    pub state: u64,
}

impl Random {
    // Goes on to the next number of the row, and takes its word.
    pub fn word(&mut self) -> u16
        ensures state { self.new.state ≡ (self.old.state % 2147483648 * 1103515245 + 12345) % 2147483648 }
        ensures word { result ≡ self.new.state / 4096 % 65536 }
    {
        self.state = (self.state % 2147483648 * 1103515245 + 12345) % 2147483648;
        (self.state / 4096 % 65536) as u16
    }
}
