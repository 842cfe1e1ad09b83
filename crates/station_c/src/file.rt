// The job file: what it asks, its image, and its bill on a blank bench part.
ghost use Rattle.std.specs.Prelude.{◌≡◌, length};
ghost use Rattle.jobfile.specs.JobFile.{job_of, values_of};
ghost use Rattle.billing.specs.File.{bill_of_file};

use job::Bill;
use jobfile::JobFile;

// What a job file asks: 13 for a malformed one.
#[unsafe(no_mangle)]
pub extern "C" fn station_job(file: &[u8]) -> JobFile
    ensures { result ≡ job_of file.now }
{
    station::station_job(file)
}

// Writes over the whole image the values of the file from byte start on.
#[unsafe(no_mangle)]
pub extern "C" fn station_image(file: &[u8], start: usize, image: &mut [u16])
    ensures { image.new ≡ values_of file.now start (length image.old) }
{
    station::station_image(file, start, image);
}

// The bill of a job file: 13 for one of more than 20,480 bytes or malformed; then the job's own refusals.
#[unsafe(no_mangle)]
pub extern "C" fn station_bill(file: &[u8]) -> Bill
    ensures { result ≡ bill_of_file file.now }
{
    station::station_bill(file)
}
