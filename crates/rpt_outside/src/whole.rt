// A whole file within a limit.
ghost use Rattle.std.specs.Prelude.{◌≡◌, IfOk, length};
ghost use Rattle.rpt_outside.specs.Causes.{NeverFalls};
ghost use Rattle.rpt_outside.specs.Seen.{seen};
ghost use Rattle.rpt_outside.specs.Whole.{Leaves, Reads, bytes_of};

use crate::errors::ReadError;
use crate::traits::Files;
use std::alloc::{AllocError, Global};

// The bytes of a read.
const PIECE: usize = 65_536;

/// The bytes of the file of that name, which is read to its end, or until more than `limit` bytes were read.
///
/// On `Failed` at its start no file is started; on each other error the file is started and read in part.
pub fn read_whole<F: Files>(
    alloc: Global,
    files: &mut F,
    name: &[u8],
    limit: u32,
) -> Result<Vec<u8>, ReadError>
    ensures reads { Reads (seen F.Files files.old files.new) limit name.now (bytes_of result) }
    ensures leaves { Leaves (F.contents files.old name.now) (F.left files.new)
        (F.is_started files.new) name.now (bytes_of result) }
    ensures missing { F.is_missing files.new ≡ F.is_missing files.old }
    ensures contents { F.contents files.new ≡ F.contents files.old }
    ensures later { NeverFalls (F.faults files.old) (F.faults files.new) }
{
    if files.start_file(name).is_err() {
        return Err(ReadError::Failed);
    }
    let Ok(mut piece) = zeros(alloc, PIECE) else {
        return Err(ReadError::Memory);
    };
    let mut bytes = Vec::new(alloc);
    loop {
        match files.read(&mut piece) {
            Err(_) => return Err(ReadError::Failed),
            Ok(0) => return Ok(bytes),
            Ok(count) => {
                if bytes.extend_from_slice(&piece[..count]).is_err() {
                    return Err(ReadError::Memory);
                }
                if bytes.len() > limit as usize {
                    return Err(ReadError::TooLarge);
                }
            }
        }
    }
}

// A buffer for so many bytes. It is made here, so that the proof of the loop needs its length alone.
fn zeros(alloc: Global, count: usize) -> Result<Vec<u8>, AllocError>
    ensures { IfOk result (λ v. length v.items ≡ count) }
{
    vec![in alloc; 0; count]
}
