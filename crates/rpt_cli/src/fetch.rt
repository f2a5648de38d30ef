// Files that a command asks for.
ghost use Rattle.std.specs.Prelude.{◌≡◌, ◌⊎◌, ◌≤◌, IfErr, IfOk, length};
ghost use Rattle.refusal_lines.specs.declared.errors.Refusal.TheVariants.{ReadFault, TooLarge, Memory};
ghost use Rattle.rpt_cli.specs.Command.{asks_within};
ghost use Rattle.rpt_cli.specs.Steps.{AreKept, Passes, Stops};

use refusal_lines::Refusal;
use rpt_base::Str;
use rpt_outside::{Files, ReadError, read_whole};
use std::alloc::Global;

/// The contents of a file of at most so many bytes.
pub(crate) fn fetch<F: Files>(
    alloc: Global,
    files: &mut F,
    name: &Str,
    limit: u32,
) -> Result<Vec<u8>, Refusal>
    ensures within { IfOk result (λ bytes. length bytes.items ≤ limit) }
    ensures passes { IfOk result (λ bytes. Passes F.Files files.old files.new
        (asks_within limit name.now) bytes.items) }
    ensures refused { IfErr result (λ e. Stops F.Files files.old files.new
        (asks_within limit name.now) e) }
    ensures kept { AreKept F.Files files.old files.new }
{
    match read_whole(alloc, files, name.bytes(), limit) {
        Ok(bytes) => Ok(bytes),
        Err(ReadError::Failed) => Err(read_fault(alloc, name)),
        Err(ReadError::TooLarge) => Err(too_large(alloc, name)),
        Err(ReadError::Memory) => Err(Refusal::Memory),
    }
}

fn read_fault(alloc: Global, name: &Str) -> Refusal
    ensures { (result ≡ Memory) ⊎ (result ≡ ReadFault name.now) }
{
    match name.copy(alloc) {
        Ok(name) => Refusal::ReadFault { name },
        Err(_) => Refusal::Memory,
    }
}

fn too_large(alloc: Global, name: &Str) -> Refusal
    ensures { (result ≡ Memory) ⊎ (result ≡ TooLarge name.now) }
{
    match name.copy(alloc) {
        Ok(name) => Refusal::TooLarge { name },
        Err(_) => Refusal::Memory,
    }
}
