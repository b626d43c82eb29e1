// Records saved and read.
// Stays (2): the C interface, as exports of the calls of simp.
ghost use Rattle.simp.specs.Records.{Saves, Loads};

// Saves the record of 40 numbers in 94 bytes.
#[unsafe(no_mangle)]
pub extern "C" fn simp_save(numbers: &[u64], bytes: &mut [u8]) -> u32
    ensures { Saves numbers.now bytes.old result bytes.new }
{
    simp::simp_save(numbers, bytes)
}

// Reads 94 bytes of edition 2, or 91 of edition 1, into the 40 numbers of a record.
#[unsafe(no_mangle)]
pub extern "C" fn simp_load(bytes: &[u8], numbers: &mut [u64]) -> u32
    ensures { Loads bytes.now numbers.old result numbers.new }
{
    simp::simp_load(bytes, numbers)
}
