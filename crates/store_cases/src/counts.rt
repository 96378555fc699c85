//! How many stops leave what.
use crate::stops::Plan;
use case_tables::Told;
use std::alloc::{AllocError, Global};

/// Where a stop is: 0 in the opening of a store, then in one of the events, and last in the closing; and what is told
/// of it: whether
/// its event is done, and its cause.
#[derive(Clone, Copy)]
pub struct Place {
    pub number: usize,
    pub done: bool,
    pub cause: &'static str,
}

/// Whether the content in this place is what is found.
fn holds(contents: &[String], place: usize, found: &Told) -> bool {
    match contents.get(place) {
        Some(content) => found.is_whole && content.as_str() == found.text.as_str(),
        None => false,
    }
}

/// How many stops left what was before their events, which are not said to be done, and how many what is after them.
/// All others are
/// wrong.
#[derive(Clone, Copy)]
struct Left {
    before: usize,
    after: usize,
}

impl Left {
    const NONE: Left = Left {
        before: 0,
        after: 0,
    };

    /// Notes what is found after a stop, and answers whether it is one of the two.
    fn note(&mut self, contents: &[String], place: Place, found: &Told) -> bool {
        if !place.done && holds(contents, place.number.saturating_sub(1), found) {
            self.before = self.before.saturating_add(1);
            return true;
        }
        if holds(contents, place.number, found) {
            self.after = self.after.saturating_add(1);
            return true;
        }
        false
    }

    fn tell(&self, name: &str, out: &mut Told) {
        out.push("; ");
        out.push(name);
        out.push(" ");
        out.push_count(self.before);
        out.push(" before, ");
        out.push_count(self.after);
        out.push(" after");
    }
}

/// How many stops there are, for one cause, how many events are done then, and what is left of what was synced, and of
/// all that was
/// written.
#[derive(Clone, Copy)]
struct Count {
    stops: usize,
    cause: &'static str,
    done: usize,
    synced: Left,
    written: Left,
}

/// The cause of stops so far and of one more, where they have one.
fn both_causes(cause: &'static str, other: &'static str) -> &'static str {
    if cause.is_empty() || cause == other {
        other
    } else {
        "several causes"
    }
}

impl Count {
    const NONE: Count = Count {
        stops: 0,
        cause: "",
        done: 0,
        synced: Left::NONE,
        written: Left::NONE,
    };

    fn tell(&self, name: &str, out: &mut Told) {
        out.push("  ");
        out.push_count(self.stops);
        out.push(" stops for ");
        out.push(self.cause);
        out.push(", ");
        out.push_count(self.done);
        out.push(" done");
        self.synced.tell("synced", out);
        self.written.tell("written", out);
        out.push(": ");
        out.push_line(name);
    }

    /// Notes what is found after a stop, and answers whether it may be left.
    fn note(&mut self, contents: &[String], place: Place, found: &Found) -> bool {
        self.stops = self.stops.saturating_add(1);
        self.cause = both_causes(self.cause, place.cause);
        self.done = self.done.saturating_add(usize::from(place.done));
        let synced = self.synced.note(contents, place, &found.synced);
        let written = self.written.note(contents, place, &found.written);
        synced && written
    }
}

/// What is found after a stop: where only what was synced is left, and where all that was written is.
#[derive(Drop)]
pub struct Found {
    pub synced: Told,
    pub written: Told,
}

/// What the stops of a series leave, by their places and in all, and a line for each that is wrong.
#[derive(Drop)]
pub struct Counts {
    places: Vec<Count>,
    total: Count,
    wrong: Told,
    is_whole: bool,
}

impl Counts {
    /// No stop yet, of so many places.
    pub fn new(alloc: Global, places: usize) -> Result<Counts, AllocError> {
        let mut counts = Vec::new(alloc);
        counts.resize(places, Count::NONE)?;
        Ok(Counts {
            places: counts,
            total: Count::NONE,
            wrong: Told::new(alloc),
            is_whole: false,
        })
    }

    /// Notes what is found after the stop after so many calls.
    pub fn note(&mut self, contents: &[String], place: Place, found: &Found, calls: u64) {
        self.total.note(contents, place, found);
        let is_right = match self.places.get_mut(place.number) {
            Some(count) => count.note(contents, place, found),
            None => false,
        };
        if !is_right {
            self.wrong.push("  wrong after ");
            self.wrong.push_number(calls.cast_signed());
            self.wrong.push_line(" calls");
        }
    }

    /// Notes that a stop was not tried.
    pub fn fail(&mut self) {
        self.wrong.fail();
    }

    /// Notes what is found where nothing stopped: the last content, if all is well.
    pub fn end(&mut self, contents: &[String], found: &Found) {
        let last = contents.len().saturating_sub(1);
        self.is_whole = holds(contents, last, &found.synced)
            && holds(contents, last, &found.written);
    }

    /// Tells them, with the names of the places.
    pub fn tell(&self, plan: &Plan<'_>, out: &mut Told) {
        for (place, count) in self.places.iter().enumerate() {
            if count.stops > 0 {
                count.tell(plan.name(place), out);
            }
        }
        self.total.tell("in all", out);
        if !self.is_whole {
            out.push_line("  not whole where nothing stops");
        }
        out.push(&self.wrong.text);
        if !self.wrong.is_whole {
            out.fail();
        }
    }
}
