// A cell's value, blank, and the words that fit, by the width of a part.
ghost use Rattle.std.specs.Prelude.{◌≡◌};
ghost use Rattle.parts.specs.Width.{blank_of, fits_in, value_of};

// The value of the word x: its low bits, as many as the width.
#[tactic(auto, using(crate::proofs::Values::wide))]
pub fn value(width: u32, x: u16) -> u16
    ensures { result ≡ value_of width x }
{
    if 16 <= width {
        return x;
    }
    (x as u32 % (1u32 << width)) as u16
}

// Blank, as a word of 16 bits.
#[tactic(auto, using(crate::proofs::Values::ones))]
pub fn blank(width: u32) -> u16
    ensures { result ≡ value_of 16 (blank_of width) }
{
    value(width, 0xffff)
}

// Whether x is a value of the width: not above blank.
#[tactic(auto, using(crate::proofs::Values::ones))]
pub fn fits(width: u32, x: u16) -> bool
    ensures { result ≡ fits_in width x }
{
    x <= blank(width)
}
