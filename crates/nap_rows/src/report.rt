//! What is wrong with a row.
use std::alloc::{AllocError, Global};

/// What is wrong with a row: the first fault reported.
#[derive(Drop)]
pub struct Report {
    /// The allocator of the texts.
    pub alloc: Global,
    /// The first fault, or empty.
    pub text: String,
    /// The trial that is made, and the number in its name.
    tried: (&'static str, usize),
    /// Whether memory ran out for a report.
    lacks_memory: bool,
}

impl Report {
    /// Returns a report without a fault.
    pub fn new(alloc: Global) -> Report {
        Report {
            alloc,
            text: String::new(alloc),
            tried: ("whole", 0),
            lacks_memory: false,
        }
    }

    /// Whether no fault was reported.
    pub fn is_well(&self) -> bool {
        self.text.is_empty() && !self.lacks_memory
    }

    /// Fails if memory ran out for a report.
    pub fn is_complete(&self) -> Result<(), AllocError> {
        if self.lacks_memory {
            return Err(AllocError);
        }
        Ok(())
    }

    /// Begins a trial: later faults are of it.
    pub fn try_now(&mut self, name: &'static str, number: usize) {
        self.tried = (name, number);
    }

    /// Keeps a fault, unless one was reported before.
    fn take(&mut self, found: Result<String, AllocError>) {
        match found {
            Ok(text) if self.is_well() => self.text = text,
            Ok(_) => {}
            Err(AllocError) => self.lacks_memory = true,
        }
    }

    /// Reports a fault of the current trial.
    pub fn tell(&mut self, what: &str) {
        let (name, number) = self.tried;
        self.take(format!(in self.alloc; "{name} {number}: {what}"));
    }

    /// Reports a fault unless the condition holds.
    pub fn check(&mut self, holds: bool, what: &str) {
        if !holds {
            self.tell(what);
        }
    }

    /// Checks that a count is the wanted one.
    pub fn same_count(&mut self, what: &str, wanted: u64, came: u64) {
        if wanted != came {
            let (name, number) = self.tried;
            self.take(format!(in self.alloc;
                "{name} {number}: {what}: {wanted} were wanted, {came} came"
            ));
        }
    }
}
