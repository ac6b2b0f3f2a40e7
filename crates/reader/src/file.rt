//! The whole file.
ghost use Rattle.std.specs.Prelude.{◌≡◌, ◌≤◌, length, IfOk, IfErr, MatchResult};
ghost use Rattle.reader.specs.declared.fault.ReadFault.TheVariants.{NoMemory};
ghost use Rattle.reader.specs.Faults.{Refusing};
ghost use Rattle.reader.specs.File.{File, told, file_text, AllStand, InRanges, FromModes, RefusedAs};

use crate::content::Content;
use crate::fault::{At, Cause, ReadFault};
use crate::section::Lines;
use std::alloc::Global;

/// The most bytes of a file that is read.
pub const MOST_BYTES: usize = 16_384;

/// The four sections in order, and nothing behind them.
fn read_sections(heap: Global, bytes: &[u8]) -> Result<Content, ReadFault>
    requires { length bytes.now ≤ 16384 }
    ensures { MatchResult result (λ c. (file_text (told c) ≡ bytes.now) × AllStand (told c)) (λ e. Refusing e (λ c at. FromModes bytes.now c at)) }
{
    let mut lines = Lines {
        rest: bytes,
        line: 1,
    };
    let names = lines.section::<String>(heap, 0)?;
    let modes = names.len() as u32;
    let exits = lines.section(heap, modes)?;
    let locks = lines.section(heap, modes)?;
    let questions = lines.section(heap, modes)?;
    if !lines.rest.is_empty() {
        return Err(lines.refused(Cause::Excess));
    }
    Ok(Content {
        names,
        exits,
        locks,
        questions,
    })
}

/// What the file says, or its first slip. A file has one text: the bytes are read exactly if they are the text of
/// something that is within the ranges.
pub fn read_content(heap: Global, bytes: &[u8]) -> Result<Content, ReadFault>
    ensures text { IfOk result (λ c. file_text (told c) ≡ bytes.now) }
    ensures ranges { IfOk result (λ c. InRanges (told c)) }
    ensures refusal { IfErr result (λ e. Refusing e (λ c at. RefusedAs bytes.now c at)) }
    ensures exactly { (f : File) → file_text f ≡ bytes.now → InRanges f → MatchResult result (λ c. told c ≡ f) (λ e. e ≡ NoMemory) }
{
    // Not by `Lines`: a file that is too long is not read line by line.
    if bytes.len() > MOST_BYTES {
        return Err(ReadFault::Slip(At {
            fault: Cause::TooLong,
            line: 0,
        }));
    }
    read_sections(heap, bytes)
}
