//! The value of a row of steps, and what the laws of every measure say of rows.
ghost use Rattle.std.specs.Prelude.{◌≡◌};
ghost use Rattle.measures.specs.Rows.{row_value, RowsExist, RowsJoin, OneValue, FrontsKeep, EndsKeep, NothingLeast, JoinsGrow};

use crate::measure::Measure;
use crate::step::Step;

/// The join of the values of the steps from the first on, nothing if there is none; `None` where a join does not exist.
pub fn row_value<M: Measure>(steps: &[Step]) -> Option<M>
    ensures value { result ≡ row_value M.operations steps.now }
    ensures rows_exist { RowsExist M.operations }
    ensures rows_join { RowsJoin M.operations }
    ensures one_value { OneValue M.operations }
    ensures fronts_keep { FrontsKeep M.operations }
    ensures ends_keep { EndsKeep M.operations }
    ensures nothing_least { NothingLeast M.operations }
    ensures joins_grow { JoinsGrow M.operations }
{
    joined_steps(steps)
}

fn joined_steps<M: Measure>(steps: &[Step]) -> Option<M>
    ensures { result ≡ row_value M.operations steps.now }
{
    let mut value = M::nothing();
    for step in steps {
        value = value.join(M::of_step(*step))?;
    }
    Some(value)
}
