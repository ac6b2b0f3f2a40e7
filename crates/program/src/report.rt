//! The report on a chart file.
ghost use Rattle.std.specs.Prelude.{IfOk, string_bytes};
ghost use Rattle.program.specs.Report.{ReportedAs};

use crate::fault_line::fault_line;
use crate::page::Page;
use reader::load::load;
use std::alloc::{AllocError, Global};

/// The page of a file that reads well, or the line of its fault.
pub(crate) fn report(heap: Global, bytes: &[u8]) -> Result<String, AllocError>
    ensures reported { IfOk result (λ t. ReportedAs bytes.now (string_bytes t)) }
{
    match load(heap, bytes) {
        Ok(loaded) => Page(&loaded).to_string(heap),
        Err(fault) => fault_line(heap, fault),
    }
}
