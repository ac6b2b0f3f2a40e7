//! From a file's bytes to its chart, with the locks set.
ghost use Rattle.std.specs.Prelude.{IfOk, IfErr, MatchResult};
ghost use Rattle.reader.specs.File.{told, InRanges};
ghost use Rattle.reader.specs.Loading.{Says, LoadedFrom, Unloadable, NotLoaded};

use crate::content::Content;
use crate::fault::LoadFault;
use crate::file::read_content;
use crate::layout::{Exits, set_locks};
use crate::loaded::Loaded;
use charts::lock::LockChart;
use std::alloc::Global;

/// The chart of a content, with its locks set.
fn build(heap: Global, content: Content) -> Result<Loaded, LoadFault>
    requires { InRanges (told content) }
    ensures { MatchResult result (λ l. LoadedFrom content l) (λ e. Unloadable content e) }
{
    let Content {
        names,
        exits,
        locks,
        questions,
    } = content;
    let modes = names.len() as u32;
    let exit_lines = exits.len() as u32;
    let lock_lines = locks.len() as u32;
    let lines = &exits;
    let table = Exits { lines, modes }.table(heap)?;
    let mut chart = LockChart::new(table);
    set_locks(&mut chart, &locks, modes + exit_lines + 4)?;
    Ok(Loaded {
        names,
        chart,
        questions,
        exit_lines,
        lock_lines,
    })
}

/// The names, the chart with its locks and the questions of a file, or why it has none.
pub fn load(heap: Global, bytes: &[u8]) -> Result<Loaded, LoadFault>
    ensures loaded { IfOk result (λ l. (c : Content) × Says bytes.now c × LoadedFrom c l) }
    ensures refusal { IfErr result (λ e. NotLoaded bytes.now e) }
{
    let content = read_content(heap, bytes)?;
    build(heap, content)
}
