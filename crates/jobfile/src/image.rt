// The image of a job file: values as little-endian 16-bit words.
ghost use Rattle.std.specs.Prelude.{◌≡◌, length};
ghost use Rattle.jobfile.specs.JobFile.{values_of};

use crate::bytes::{bytes_from, two_bytes};

// The values of the bytes from the first on, over the whole image.
#[tactic(auto, using(crate::proofs::Values::writes), unfolding(crate::specs::JobFile::values_of))]
fn read_values(bytes: &[u8], image: &mut [u16])
    ensures { image.new ≡ values_of bytes.now 0 (length image.old) }
{
    for (i, value) in image.iter_mut().enumerate() {
        *value = two_bytes(bytes, 2 * i);
    }
}

// The values of the file from byte start on, over the whole image.
#[tactic(auto, using(crate::proofs::Values::begins))]
pub fn read_image(file: &[u8], start: usize, image: &mut [u16])
    ensures { image.new ≡ values_of file.now start (length image.old) }
{
    read_values(bytes_from(file, start), image);
}
