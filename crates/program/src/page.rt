//! The report on a file that reads well.
ghost use Rattle.std.specs.Prelude.{◌≡◌, map, Some, vec_len, string_bytes};
ghost use Rattle.std.specs.List.{slice_get};
ghost use Rattle.std.specs.Option.{option_map};
ghost use Rattle.std.specs.Result.{result_map_both};
ghost use Rattle.reader.specs.Rows.{question_told};
ghost use Rattle.program.specs.Report.{question_fault_number, question_fault_text, question_ends, question_line, loaded_page};

use reader::content::Question;
use reader::loaded::Loaded;
use std::fmt;

/// Why a question has no line of its own. The discriminant is the fault's number.
// Number and text as those of the other faults, each in the crate where it arises.
#[derive(Clone, Copy, Debug, PartialEq, Eq)]
enum QuestionFault {
    UnknownStart = 30,
    UnknownWatched = 31,
}

impl QuestionFault {
    fn number(self) -> u32
        ensures { result ≡ question_fault_number self }
    {
        self as u32
    }
}

impl fmt::Display for QuestionFault {
    ghost output = { λ fault. Some (question_fault_text fault) };

    fn fmt<W: fmt::Write>(&self, f: &mut fmt::Formatter<W>) -> fmt::Result {
        write!(f, "lister {}", self.number())
    }
}

/// A question of a file: its number there, and the names of the file's modes.
#[derive(Clone, Copy)]
struct QuestionLine<'a> {
    names: &'a [String],
    number: usize,
    question: Question,
}

impl<'a> QuestionLine<'a> {
    /// The name of a mode, if it is one.
    fn name(&self, mode: u32) -> Option<&'a str>
        ensures { option_map (λ n. n.now) result ≡ slice_get (map string_bytes self.now.names.now) mode }
    {
        self.names.get(mode as usize).map(String::as_str)
    }

    /// The names of start and watched; the fault of the first of them that is no mode.
    fn ends(&self) -> Result<(&'a str, &'a str), QuestionFault>
        ensures { result_map_both (λ ends. (ends.0.now, ends.1.now)) (λ fault. fault) result ≡ question_ends (map string_bytes self.now.names.now) (question_told self.now.question) }
    {
        let start = self
            .name(self.question.start)
            .ok_or(QuestionFault::UnknownStart)?;
        let watched = self
            .name(self.question.watched)
            .ok_or(QuestionFault::UnknownWatched)?;
        Ok((start, watched))
    }
}

impl fmt::Display for QuestionLine<'_> {
    ghost output = { λ l. Some (question_line (map string_bytes l.names.now) l.number (question_told l.question)) };

    fn fmt<W: fmt::Write>(&self, f: &mut fmt::Formatter<W>) -> fmt::Result {
        let number = self.number;
        match self.ends() {
            Ok((start, watched)) => writeln!(
                f,
                "question {number} {start} {watched} {}",
                self.question.letter
            ),
            Err(fault) => writeln!(f, "fault {fault} question {number}"),
        }
    }
}

/// The counts of the file, and its questions, which are numbered from 0.
#[derive(Clone, Copy)]
pub(crate) struct Page<'a>(pub(crate) &'a Loaded);

impl fmt::Display for Page<'_> {
    ghost output = { λ p. Some (loaded_page p.0.now) };

    fn fmt<W: fmt::Write>(&self, f: &mut fmt::Formatter<W>) -> fmt::Result {
        let Page(loaded) = self;
        writeln!(
            f,
            "chart {} modes {} exits {} locks {} questions",
            loaded.names.len(),
            loaded.exit_lines,
            loaded.lock_lines,
            loaded.questions.len(),
        )?;
        for (number, question) in loaded.questions.iter().enumerate() {
            let line = QuestionLine {
                names: &loaded.names,
                number,
                question: *question,
            };
            write!(f, "{line}")?;
        }
        Ok(())
    }
}
