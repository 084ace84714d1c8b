//! Random events, and a test's own account of what coordinators have heard: plain sets.

use schedules::Event;
use std::alloc::{AllocError, Global};

/// Which of the posted files are in a set.
pub type Files = Vec<bool>;

/// A generator of numbers: xorshift of 64 bits.
#[derive(Drop)]
pub struct Numbers {
    state: u64,
}

impl Numbers {
    /// From a number that isn't 0.
    pub fn from(seed: u64) -> Numbers {
        Numbers { state: seed }
    }

    /// A number below `end`, or 0.
    fn below(&mut self, end: usize) -> usize {
        let state = self.state ^ (self.state << 13);
        let state = state ^ (state >> 7);
        self.state = state ^ (state << 17);
        ((self.state >> 33) as usize).checked_rem(end).unwrap_or(0)
    }
}

/// An event, in which the number of a file stands for its bytes.
#[derive(Clone, Copy)]
pub enum Step {
    Post(usize),
    Share(usize),
    Take { to: usize, packet: usize },
    Save(usize),
    Restart(usize),
}

/// A step of so many coordinators, packets and files, or of one more than there are.
pub fn next_step(numbers: &mut Numbers, account: &Account, files: usize) -> Step {
    let n = account.heard.len().saturating_add(1);
    match numbers.below(10) {
        0 | 1 => Step::Post(numbers.below(files)),
        2 | 3 => Step::Share(numbers.below(n)),
        4 => Step::Save(numbers.below(n)),
        5 => Step::Restart(numbers.below(n)),
        _ => Step::Take {
            to: numbers.below(n),
            packet: numbers.below(account.packets.len().saturating_add(1)),
        },
    }
}

/// The event of a step.
pub fn event_of(alloc: Global, step: Step, files: &[&[u8]]) -> Result<Event, AllocError> {
    Ok(match step {
        Step::Post(file) => {
            let bytes = files.get(file).copied().unwrap_or(&[]);
            Event::Post(bytes.to_vec(alloc)?)
        }
        Step::Share(i) => Event::Share(i),
        Step::Take { to, packet } => Event::Take { to, packet },
        Step::Save(i) => Event::Save(i),
        Step::Restart(i) => Event::Restart(i),
    })
}

/// What is in each packet, and what each coordinator has heard and saved.
#[derive(Drop)]
pub struct Account {
    packets: Vec<Files>,
    heard: Vec<Files>,
    saved: Vec<Files>,
}

fn nothing_each(alloc: Global, n: usize, files: usize) -> Result<Vec<Files>, AllocError> {
    let mut sets = Vec::new(alloc);
    for _ in 0..n {
        sets.push(vec![in alloc; false; files]?)?;
    }
    Ok(sets)
}

// Puts the set of one list at an index into another.
fn put(alloc: Global, from: &[Files], to: &mut [Files], index: usize) -> Result<(), AllocError> {
    if let (Some(set), Some(place)) = (from.get(index), to.get_mut(index)) {
        *place = set.to_vec(alloc)?;
    }
    Ok(())
}

fn unite(own: &mut [bool], other: &[bool]) {
    for (own, other) in own.iter_mut().zip(other) {
        *own = *own || *other;
    }
}

impl Account {
    /// Of so many coordinators and files.
    pub fn new(alloc: Global, n: usize, files: usize) -> Result<Account, AllocError> {
        Ok(Account {
            packets: Vec::new(alloc),
            heard: nothing_each(alloc, n, files)?,
            saved: nothing_each(alloc, n, files)?,
        })
    }

    /// What each coordinator has heard.
    pub fn heard(&self) -> &[Files] {
        &self.heard
    }

    fn post(&mut self, alloc: Global, file: usize, files: usize) -> Result<(), AllocError> {
        let mut set = vec![in alloc; false; files]?;
        if let Some(place) = set.get_mut(file) {
            *place = true;
        }
        self.packets.push(set)?;
        Ok(())
    }

    fn share(&mut self, alloc: Global, i: usize) -> Result<(), AllocError> {
        if let Some(set) = self.heard.get(i) {
            self.packets.push(set.to_vec(alloc)?)?;
        }
        Ok(())
    }

    fn take(&mut self, to: usize, packet: usize) {
        if let (Some(own), Some(other)) = (self.heard.get_mut(to), self.packets.get(packet)) {
            unite(own, other);
        }
    }

    /// What a step does.
    pub fn step(&mut self, alloc: Global, step: Step, files: usize) -> Result<(), AllocError> {
        match step {
            Step::Post(file) => self.post(alloc, file, files),
            Step::Share(i) => self.share(alloc, i),
            Step::Take { to, packet } => {
                self.take(to, packet);
                Ok(())
            }
            Step::Save(i) => put(alloc, &self.heard, &mut self.saved, i),
            Step::Restart(i) => put(alloc, &self.saved, &mut self.heard, i),
        }
    }
}
