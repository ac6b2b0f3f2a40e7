//! The rows of the four sections, each read from its line.
ghost use Rattle.std.specs.Prelude.{◌≡◌, ℕ, map, IfOk, string_bytes, MatchOption};
ghost use Rattle.std.specs.Option.{option_map};
ghost use Rattle.std.specs.Result.{result_err};
ghost use Rattle.reader.specs.Lines.{Form, Reads};
ghost use Rattle.reader.specs.Rows.{name_byte, name_form, exit_form, exit_told, lock_form, lock_told, question_form, question_told, LetterField, NoLetterField, last_from};

use crate::content::{ExitLine, Letter, LockLine, Question};
use crate::fault::Cause;
use crate::text::{field, number};
use measures::step::Step;
use std::alloc::{AllocError, Global};

/// The most bytes of a name.
const MOST_NAME: usize = 16;

/// The most courses that a question asks for.
const MOST_COURSES: u32 = 99;

/// A row of a section.
pub(crate) trait Row: Drop {
    /// What the section's lines hold.
    ghost form: { Form };

    /// The row as the file's rules speak of it.
    ghost told: { Self → form.Row };

    /// `LEAST`, for clauses.
    ghost LEAST: { ℕ };

    /// `MOST`, for clauses.
    ghost MOST: { ℕ };

    /// The least number of such rows in a file.
    const LEAST: u32;

    /// The most.
    const MOST: u32;

    /// The row that the line writes, if it writes one.
    // A name wants memory. The other rows have readers of their own, where `?` passes over what is not of the form.
    fn read(heap: Global, line: &[u8]) -> Result<Option<Self>, AllocError>
        ensures { IfOk result (λ o. Reads form line.now (option_map told o)) };

    /// Refuses a row that has a slip, given the number of modes and the rows before it.
    // No default that takes every row: that is not what every form says, and a default is proved for all.
    fn check(&self, modes: u32, before: &[Self]) -> Result<(), Cause>
        ensures { result_err result ≡ form.slip modes (map told before.now) (told self.now) };
}

/// Whether a name may hold the byte.
fn is_name_byte(b: u8) -> bool
    ensures { result ≡ name_byte b }
{
    matches!(b, b'a'..=b'z' | b'0'..=b'9' | b'-')
}

/// The name that the line is.
fn read_name(line: &[u8]) -> Option<&str>
    ensures { Reads name_form line.now (option_map (λ name. name.now) result) }
{
    if line.is_empty() || line.len() > MOST_NAME || !line.iter().all(|b| is_name_byte(*b)) {
        return None;
    }
    str::from_utf8(line).ok()
}

/// The mode left in the last of these exit lines, or 0 if there is none.
fn last_from(before: &[ExitLine]) -> u32
    ensures { result ≡ last_from 0 (map exit_told before.now) }
{
    before.last().map_or(0, |x| x.from)
}

fn read_exit(line: &[u8]) -> Option<ExitLine>
    ensures { Reads exit_form line.now (option_map exit_told result) }
{
    let (from, rest) = field(line)?;
    let (to, rest) = field(rest)?;
    let (faults, rest) = field(rest)?;
    let dwell = number(rest)?;
    let step = Step::new(u8::try_from(faults).ok()?, dwell);
    Some(ExitLine { from, to, step })
}

fn read_lock(line: &[u8]) -> Option<LockLine>
    ensures { Reads lock_form line.now (option_map lock_told result) }
{
    let (mode, rest) = field(line)?;
    let exit = number(rest)?;
    Some(LockLine { mode, exit })
}

/// A letter with one space behind it, and what follows.
fn letter_field(line: &[u8]) -> Option<(Letter, &[u8])>
    ensures { MatchOption result (NoLetterField line.now) (λ p. LetterField line.now p.0 p.1.now) }
{
    let [b, b' ', rest @ ..] = line else {
        return None;
    };
    Some((Letter::try_from(*b).ok()?, rest))
}

fn read_question(line: &[u8]) -> Option<Question>
    ensures { Reads question_form line.now (option_map question_told result) }
{
    let (start, rest) = field(line)?;
    let (watched, rest) = field(rest)?;
    let (letter, rest) = letter_field(rest)?;
    let k = number(rest)?;
    Some(Question {
        start,
        watched,
        letter,
        k,
    })
}

impl Row for String {
    ghost form = { name_form };

    ghost told = { string_bytes };

    ghost LEAST = { 1 };

    ghost MOST = { 64 };

    const LEAST: u32 = 1;

    const MOST: u32 = 64;

    fn read(heap: Global, line: &[u8]) -> Result<Option<String>, AllocError> {
        read_name(line)
            .map(|name| String::from_str(heap, name))
            .transpose()
    }

    fn check(&self, modes: u32, before: &[String]) -> Result<(), Cause> {
        Ok(())
    }
}

impl Row for ExitLine {
    ghost form = { exit_form };

    ghost told = { exit_told };

    ghost LEAST = { 0 };

    ghost MOST = { 512 };

    const LEAST: u32 = 0;

    const MOST: u32 = 512;

    fn read(heap: Global, line: &[u8]) -> Result<Option<ExitLine>, AllocError> {
        Ok(read_exit(line))
    }

    fn check(&self, modes: u32, before: &[ExitLine]) -> Result<(), Cause> {
        if self.from < modes && self.from >= last_from(before) {
            Ok(())
        } else {
            Err(Cause::FromMode)
        }
    }
}

impl Row for LockLine {
    ghost form = { lock_form };

    ghost told = { lock_told };

    ghost LEAST = { 0 };

    ghost MOST = { 32 };

    const LEAST: u32 = 0;

    const MOST: u32 = 32;

    fn read(heap: Global, line: &[u8]) -> Result<Option<LockLine>, AllocError> {
        Ok(read_lock(line))
    }

    fn check(&self, modes: u32, before: &[LockLine]) -> Result<(), Cause> {
        Ok(())
    }
}

impl Row for Question {
    ghost form = { question_form };

    ghost told = { question_told };

    ghost LEAST = { 1 };

    ghost MOST = { 8 };

    const LEAST: u32 = 1;

    const MOST: u32 = 8;

    fn read(heap: Global, line: &[u8]) -> Result<Option<Question>, AllocError> {
        Ok(read_question(line))
    }

    fn check(&self, modes: u32, before: &[Question]) -> Result<(), Cause> {
        if self.k <= MOST_COURSES {
            Ok(())
        } else {
            Err(Cause::OutOfRange)
        }
    }
}
