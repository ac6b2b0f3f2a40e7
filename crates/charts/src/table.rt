//! The table chart: a chart held as a list of offsets and a list of entries.
ghost use Rattle.std.specs.Prelude.{◌≡◌, MatchResult};
ghost use Rattle.std.specs.Option.{option_map};
ghost use Rattle.std.specs.Result.{result_err};
ghost use Rattle.std.specs.List.{slice_get};
ghost use Rattle.charts.specs.Tables.{SoundTable, AnswerOfTable, table_meaning};
ghost use Rattle.charts.specs.TableLaws.{sound_table_lawful};

use crate::chart::Chart;
use crate::fault::ChartFault;
use crate::lead::Lead;
use crate::table_check::check_table;

/// A chart in a table: the exits of mode p are the entries from offset p up to, not including, offset p + 1.
// Two lists, not one of modes: the rules number offsets and entries, and a refused table is handed back as it was handed over.
#[derive(Drop)]
pub struct TableChart {
    offsets: Vec<u32>,
    entries: Vec<Lead>,
    ghost sound: { SoundTable offsets.items entries.items },
}

/// A table that is no chart: why, and its lists as they were handed over.
#[derive(Drop)]
pub struct RefusedTable {
    pub fault: ChartFault,
    pub offsets: Vec<u32>,
    pub entries: Vec<Lead>,
}

impl TableChart {
    /// The chart of a table. The rules are asked in the order of their numbers, and the least place at fault is named.
    #[tactic(auto, using(crate::proofs::TableAnswers::answer_from_checked))]
    pub fn new(offsets: Vec<u32>, entries: Vec<Lead>) -> Result<Self, RefusedTable>
        ensures answer { AnswerOfTable offsets.items entries.items (option_map (λ e. e.fault) (result_err result)) }
        ensures same_offsets { MatchResult result (λ t. t.offsets ≡ offsets) (λ e. e.offsets ≡ offsets) }
        ensures same_entries { MatchResult result (λ t. t.entries ≡ entries) (λ e. e.entries ≡ entries) }
    {
        // Both arms take the lists, so two closures could not: a `match` is the plain form.
        match check_table(&offsets, &entries) {
            Ok(()) => Ok(TableChart { offsets, entries }),
            Err(fault) => Err(RefusedTable {
                fault,
                offsets,
                entries,
            }),
        }
    }

    /// The entry of a number, if there is one.
    #[tactic(auto, using(std::proofs::lemmas::Option::slice_get_past, std::proofs::lemmas::Option::slice_get_read))]
    fn entry(&self, number: usize) -> Option<Lead>
        ensures { result ≡ slice_get self.now.entries.items number }
    {
        self.entries.get(number).copied()
    }
}

impl Chart for TableChart {
    ghost means = { λ t. table_meaning t.offsets.items t.entries.items };

    ghost lawful = { λ t. sound_table_lawful t.offsets.items t.entries.items t.sound };

    fn modes(&self) -> u32 {
        (self.offsets.len() - 1) as u32
    }

    fn exits(&self, mode: u32) -> u32 {
        let mode = mode as usize;
        if mode + 1 < self.offsets.len() {
            self.offsets[mode + 1] - self.offsets[mode]
        } else {
            0
        }
    }

    fn exit(&self, mode: u32, exit: u32) -> Option<Lead> {
        if exit < self.exits(mode) {
            self.entry(self.offsets[mode as usize] as usize + exit as usize)
        } else {
            None
        }
    }
}
