// The sum of a range's values, added in 16 bits, wrapping.
ghost use Rattle.std.specs.Prelude.{◌≡◌};
ghost use Rattle.values.specs.Total.{sum_of};

// The sum of the values of some cells.
pub fn sum(cells: &[u16], width: u32) -> u16
    ensures { result ≡ sum_of width cells.now }
{
    cells
        .iter()
        .fold(0, |total, &x| total.wrapping_add(parts::value(width, x)))
}
