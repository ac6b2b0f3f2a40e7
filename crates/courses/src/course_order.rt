//! The order of courses.
ghost use Rattle.courses.specs.Theorems.{OrderStands};

use measures::measure::Measure;

/// The courses from a mode stand in a strict and total order, which a common front keeps.
pub fn order_is_total<M: Measure>()
    ensures { OrderStands M.operations }
{}
