//! Each schedule of one crossing up to a number of events: sends that are repeated, notes that are lost, late or come
//! twice.

use crate::shown::Shown;
use crate::words::short;
use lsl_handoff::{DepartFault, Field, Note, NoteKind, Parcel};
use std::alloc::{AllocError, Global};

/// How many events follow the departure.
const EVENTS: usize = 6;

/// How many choices there are for the first of them: to send again, to give up, or to deliver the offer. For each other
/// there is one more, since one note more may have been sent.
const CHOICES: usize = 3;

/// The number of schedules.
const SCHEDULES: usize = 3 * 4 * 5 * 6 * 7 * 8;

/// A copy of a note.
fn copied(note: &Note) -> Result<Note, AllocError> {
    Ok(Note {
        kind: note.kind,
        object: note.object,
        trip: note.trip,
        from: note.from,
        to: note.to,
        parcel: note.parcel.copy()?,
    })
}

fn deliver(field: &mut Field, note: Note) -> Option<Note> {
    if field.has_card(note.to, note.object) {
        field.deliver(note)
    } else {
        None
    }
}

fn give_up(field: &mut Field, region: u32) -> Option<Note> {
    if field.has_card(region, 1) {
        field.give_up(region, 1)
    } else {
        None
    }
}

fn again(field: &Field, region: u32) -> Result<Option<Note>, AllocError> {
    if field.has_card(region, 1) {
        field.again(region, 1)
    } else {
        Ok(None)
    }
}

/// Whether the object is live in this region: only there it would depart, if it went elsewhere.
fn is_live(field: &mut Field, region: u32) -> bool {
    field.has_card(region, 1)
        && matches!(
            field.depart(region, 1, region, Parcel::empty()),
            Err(DepartFault::Here)
        )
}

fn live(field: &Field) -> Option<u32> {
    if field.has_card(1, 1) {
        field.live(1)
    } else {
        None
    }
}

/// What an event of this number does: the note that is sent.
fn happen(field: &mut Field, sent: &[Note], choice: usize) -> Result<Option<Note>, AllocError> {
    if choice == 0 {
        return again(field, 1);
    }
    if choice == 1 {
        return Ok(give_up(field, 1));
    }
    match sent.get(choice - 2) {
        Some(note) => Ok(deliver(field, copied(note)?)),
        None => Ok(None),
    }
}

/// Where the object is: one region where it is live and no other, or none if it is on its way.
fn place(field: &mut Field) -> Result<&'static str, AllocError> {
    let first = is_live(field, 1);
    let second = is_live(field, 2);
    match live(field) {
        Some(1) if first && !second => Ok("1"),
        Some(2) if second && !first => Ok("2"),
        None if !first && !second && again(field, 1)?.is_some() => Ok("-"),
        _ => Ok("!"),
    }
}

/// The field after a departure, with its offer.
fn departed(alloc: Global, sent: &mut Vec<Note>) -> Result<Field, AllocError> {
    let mut field = Field::new(alloc, &[1], 2)?;
    let parcel = Parcel::from_vec(Vec::from_slice(alloc, &[7, 8, 9])?);
    if field.has_card(1, 1) {
        match field.depart(1, 1, 2, parcel) {
            Ok(offer) => sent.push(offer)?,
            Err(_) => return Ok(field),
        }
    }
    Ok(field)
}

/// Where the object is after the events of a schedule, in words, or how many of all schedules keep it in one place.
pub fn tell(told: &mut Shown, events: &str) -> Result<(), AllocError> {
    match events {
        "all" => tell_count(told),
        events => tell_places(told, numbered(events)),
    }
}

/// Prints where the object is after each event of a schedule: the regions and `-` while it is on its way, and `!` if it
/// is in no one place.
fn tell_places(told: &mut Shown, schedule: usize) -> Result<(), AllocError> {
    let mut sent = Vec::new(told.alloc());
    let mut field = departed(told.alloc(), &mut sent)?;
    tell_events(told, &mut field, &mut sent, schedule)
}

fn tell_events(
    told: &mut Shown,
    field: &mut Field,
    sent: &mut Vec<Note>,
    schedule: usize,
) -> Result<(), AllocError> {
    let mut rest = schedule;
    for event in 0..EVENTS {
        let choices = CHOICES + event;
        go_on(field, sent, rest % choices)?;
        rest /= choices;
        told.add(place(field)?);
    }
    Ok(())
}

fn go_on(field: &mut Field, sent: &mut Vec<Note>, choice: usize) -> Result<(), AllocError> {
    match happen(field, sent.as_slice(), choice)? {
        Some(note) => Ok(sent.push(note)?),
        None => Ok(()),
    }
}

fn tell_count(told: &mut Shown) -> Result<(), AllocError> {
    let mut count = 0u32;
    for schedule in 0..SCHEDULES {
        if stays(told.alloc(), schedule)? {
            count = count.saturating_add(1);
        }
    }
    told.put(&count);
    Ok(())
}

/// Whether the object is in one place after each event.
fn stays(alloc: Global, schedule: usize) -> Result<bool, AllocError> {
    let mut places = Shown::new(alloc);
    tell_places(&mut places, schedule)?;
    let places = places.into_text()?;
    Ok(!places.contains("!"))
}

/// The number of a schedule, event by event: 0 is sent again, 1 is given up, 2 is the offer, and from 3 on are the
/// notes that were sent after it.
fn numbered(events: &str) -> usize {
    let mut schedule = 0usize;
    let mut worth = 1usize;
    let mut choices = CHOICES;
    for event in events.split(' ') {
        schedule = schedule.wrapping_add(worth.wrapping_mul(short(event)));
        worth = worth.wrapping_mul(choices);
        choices = choices.wrapping_add(1);
    }
    schedule
}
