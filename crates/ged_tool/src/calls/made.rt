// What was made, or that there was no memory for it.
ghost use Rattle.std.specs.Prelude.{◌≡◌, IfErr, IfOk, Result, alloc_error};

use ged_faults::Fault;
use std::alloc::AllocError;

/// What was made, or the fault that there was no memory for it.
pub(crate) fn made_or_memory<T>(made: Result<T, AllocError>) -> Result<T, Fault>
    ensures made { IfOk result (λ it. made ≡ Result.Ok it) }
    ensures memory { IfErr result (λ fault. fault ≡ Fault.Memory alloc_error) }
{
    match made {
        Ok(it) => Ok(it),
        Err(error) => Err(Fault::Memory(error)),
    }
}
