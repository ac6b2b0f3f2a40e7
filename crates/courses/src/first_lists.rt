//! Lists of first courses.
ghost use Rattle.std.specs.Prelude.{ℕ, ◌≤◌, List, length};
ghost use Rattle.charts.specs.Meaning.{Meaning, Lawful, SameExits};
ghost use Rattle.courses.specs.Courses.{Course, FirstCourses};
ghost use Rattle.courses.specs.Theorems.{ListsAgree, NothingLeftOut};

use measures::measure::Measure;

/// Two lists of first courses agree at every place that both have, also over two charts that mean the same exits.
pub fn lists_agree<M: Measure>()
    ensures { (c d : Meaning) → SameExits c d → ListsAgree M.operations c.exit d.exit }
{}

/// The offers leave nothing out: behind a list of up to 65,534 first courses the first that waits is the next course of
/// all, and where none waits the list holds every course.
pub fn offers_leave_nothing_out<M: Measure>()
    ensures { (c : Meaning) → Lawful c → (s t : ℕ) (ds : List Course) → FirstCourses M.operations c.exit s t ds → length ds ≤ 65534 → NothingLeftOut M.operations c.exit s t ds }
{}
