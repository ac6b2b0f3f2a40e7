//! The lines of a file, and its sections: a count on a line, then a line for each row.
ghost use Rattle.std.specs.Prelude.{◌≡◌, ℕ, ◌+◌, ◌≤◌, [], map, length, MatchResult};
ghost use Rattle.reader.specs.declared.fault.Cause.TheVariants.{Short};
ghost use Rattle.reader.specs.Faults.{RefusedOn, RefusedFrom};
ghost use Rattle.reader.specs.Lines.{Cut, Free};
ghost use Rattle.reader.specs.Sections.{count_form, LineRead, LineRefused, RowsRead, RowsRefused, SectionRead, SectionRefused};

use crate::fault::{At, Cause, ReadFault};
use crate::row::Row;
use crate::text::{cut, number};
use std::alloc::{AllocError, Global};

/// What is left to read of a file, and the line on which it begins. A line takes a byte at least, so the lines of a file are no
/// more than its bytes.
// The allocator is passed to what allocates, as it is to std's own functions, and the first section is read before the number of modes
// is known: neither is a field.
#[derive(Drop)]
pub(crate) struct Lines<'a> {
    pub rest: &'a [u8],
    pub line: u32,
    ghost short: { line + length rest.now ≤ 16385 },
}

impl<'a> Lines<'a> {
    /// The refusal of the next line.
    pub(crate) fn refused(&self, fault: Cause) -> ReadFault
        ensures { result ≡ ReadFault.Slip (record { fault = fault; line = self.now.line }) }
    {
        ReadFault::Slip(At {
            fault,
            line: self.line,
        })
    }

    /// The text of the next line, and the lines behind it.
    fn split_first(&self) -> Result<(&'a [u8], Lines<'a>), ReadFault>
        ensures { MatchResult result (λ p. Cut 10 self.now.rest.now p.0.now p.1.rest.now × (p.1.line ≡ self.now.line + 1)) (λ e. RefusedOn e self.now.line (λ c. (c ≡ Short) × Free 10 self.now.rest.now)) }
    {
        let (text, rest) = cut(self.rest, b'\n').ok_or(self.refused(Cause::Short))?;
        let line = self.line + 1;
        Ok((text, Lines { rest, line }))
    }

    /// The count on the next line, which fits a section of such rows.
    // Counts are no rows of their own: with a type for them, and the rows that it counts as its parameter, this would be longer.
    fn count<T: Row>(&mut self) -> Result<u32, ReadFault>
        ensures { MatchResult result (λ n. LineRead (count_form T.LEAST T.MOST) 0 [] self.old.rest.now n self.new.rest.now × (self.new.line ≡ self.old.line + 1)) (λ e. RefusedOn e self.old.line (LineRefused (count_form T.LEAST T.MOST) 0 [] self.old.rest.now)) }
    {
        let (text, behind) = self.split_first()?;
        let count = number(text).ok_or(self.refused(Cause::NotOfForm))?;
        if count < T::LEAST || count > T::MOST {
            return Err(self.refused(Cause::OutOfRange));
        }
        *self = behind;
        Ok(count)
    }

    /// The row on the next line, after the rows before it.
    fn row<T: Row>(&mut self, heap: Global, modes: u32, before: &[T]) -> Result<T, ReadFault>
        ensures { MatchResult result (λ x. LineRead T.form modes (map T.told before.now) self.old.rest.now (T.told x) self.new.rest.now × (self.new.line ≡ self.old.line + 1)) (λ e. RefusedOn e self.old.line (LineRefused T.form modes (map T.told before.now) self.old.rest.now)) }
    {
        let (text, behind) = self.split_first()?;
        let row = T::read(heap, text)?.ok_or(self.refused(Cause::NotOfForm))?;
        // Tried with `map_err` and `?`: that its closure answers the refusal of this line did not prove.
        if let Err(cause) = row.check(modes, before) {
            return Err(self.refused(cause));
        }
        *self = behind;
        Ok(row)
    }

    /// The rows on the next `count` lines.
    fn rows<T: Row>(&mut self, heap: Global, modes: u32, count: u32) -> Result<Vec<T>, ReadFault>
        ensures { MatchResult result (λ v. RowsRead T.form modes count self.old.rest.now (map T.told v.items) self.new.rest.now × (self.new.line ≡ self.old.line + count)) (λ e. RefusedFrom e self.old.line (RowsRefused T.form modes count self.old.rest.now)) }
    {
        let mut rows = Vec::new(heap);
        for _ in 0..count {
            let row = self.row(heap, modes, &rows)?;
            rows.push(row).map_err(AllocError::from)?;
        }
        Ok(rows)
    }

    /// The rows of the next section, in a file of so many modes.
    pub(crate) fn section<T: Row>(&mut self, heap: Global, modes: u32) -> Result<Vec<T>, ReadFault>
        ensures { MatchResult result (λ v. SectionRead T.form modes T.LEAST T.MOST self.old.rest.now (map T.told v.items) self.new.rest.now × (self.new.line ≡ self.old.line + 1 + length (map T.told v.items))) (λ e. RefusedFrom e self.old.line (SectionRefused T.form modes T.LEAST T.MOST self.old.rest.now)) }
    {
        let count = self.count::<T>()?;
        self.rows(heap, modes, count)
    }
}
