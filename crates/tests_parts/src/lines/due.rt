//! When scripts are due: put, put again and stopped, and read in the order of scripts.

use crate::shown::Shown;
use crate::words::{long, number};
use lsl_post::Due;
use std::alloc::AllocError;

/// What is read: `1@5000` makes script 1 due at 5000, `1@` at no time, and a number reads the clock.
pub fn tell(told: &mut Shown, course: &str) -> Result<(), AllocError> {
    let mut due = Due::new(told.alloc());
    run(told, &mut due, course)
}

fn run(told: &mut Shown, due: &mut Due, course: &str) -> Result<(), AllocError> {
    for word in course.split(' ') {
        match word.split_once('@') {
            Some((script, time)) => due.put(number(script), time.parse::<u64>().ok())?,
            None => tell_ripe(told, due, long(word))?,
        }
    }
    Ok(())
}

fn tell_ripe(told: &mut Shown, due: &Due, clock: u64) -> Result<(), AllocError> {
    let scripts = due.ripe(told.alloc(), clock)?;
    told.debug(&scripts.as_slice());
    Ok(())
}
