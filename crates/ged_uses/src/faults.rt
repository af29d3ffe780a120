// On ged_faults.
ghost use Rattle.std.specs.Prelude.{◌≡◌};
ghost use Rattle.ged_faults.specs.Faults.{file_fault_number, file_fault_of_line};

use ged_faults::Fault;
use ged_line::LineFault;

/// The number by which a fault of a line is told.
pub fn told_number(line: u64, fault: LineFault) -> u8
    ensures { result ≡ file_fault_number (file_fault_of_line fault) }
{
    let kind = fault.into();
    Fault::InFile { line, kind }.number()
}
