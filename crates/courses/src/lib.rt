//! Courses: what they are, how they are ranked, and why a list that is made from their offers leaves none out. There is
//! nothing to run here: each function stands for the theorems that its contract names, over every measure.
#![tactic(auto)]

pub mod course_offers;
pub mod course_order;
pub mod first_lists;
pub mod least_courses;
