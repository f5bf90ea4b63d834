//! Courses: what every lawful plan is, seen front by front. A front says how many items of each stack are taken; strips, bands and
//! cells lead from front to front. So the shortest course bounds the length of every lawful plan.
#![tactic(auto)]

pub mod laws;
