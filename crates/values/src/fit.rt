// Whether values fit a width.
ghost use Rattle.std.specs.Prelude.{◌≡◌};
ghost use Rattle.values.specs.Fit.{fit_all};

// Whether every image value fits the width.
// Not inlined: beside its loop in one function, all else of a job took a quarter more time where little is written.
#[inline(never)]
pub fn all_fit(width: u32, image: &[u16]) -> bool
    ensures { result ≡ fit_all width image.now }
{
    for &x in image {
        if !parts::fits(width, x) {
            return false;
        }
    }
    true
}
