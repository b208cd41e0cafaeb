//! Which calls of a store in memory are to fail, and how.

/// A call of a store. Each counts its own calls, and `Any` counts all.
#[derive(Clone, Copy, PartialEq, Eq)]
pub enum Call {
    Any,
    List,
    Get,
    PutNew,
    PutOver,
    Delete,
    Ratify,
    Ratified,
    Forget,
}

/// How a call fails.
#[derive(Clone, Copy)]
pub enum How {
    /// With no event.
    Before,
    /// After the event that the call would have added, if any.
    After,
    /// A `put_over` after the first `kept` bytes were written; other calls as `Before`.
    Torn { kept: u64 },
    /// A `put_over` after the object was lost; other calls as `Before`.
    Lost,
    /// This call and all later ones as `Before`, until the store is mended.
    Stop,
}

/// That the nth call of a kind, counted from 1, is to fail.
#[derive(Clone, Copy)]
pub struct Fault {
    pub call: Call,
    pub nth: u64,
    pub how: How,
}

impl Fault {
    // Whether calls of this kind count for the fault.
    fn counts(&self, call: Call) -> bool {
        self.call == Call::Any || self.call == call
    }
}

// The faults to come. Each counts the calls of its kind down: the one at 1 is due.
#[derive(Drop)]
pub(crate) struct Plan {
    faults: Vec<Fault>,
    is_stopped: bool,
}

impl Plan {
    pub(crate) fn new(faults: Vec<Fault>) -> Self {
        Plan {
            faults,
            is_stopped: false,
        }
    }

    // These faults from now on. A stop lasts.
    pub(crate) fn replace(&mut self, faults: Vec<Fault>) {
        self.faults = faults;
    }

    // Ends a stop.
    pub(crate) fn mend(&mut self) {
        self.is_stopped = false;
    }

    // How this call is to fail, if it is.
    pub(crate) fn next(&mut self, call: Call) -> Option<How> {
        let mut due = None;
        for fault in self.faults.iter_mut() {
            if fault.counts(call) {
                if fault.nth == 1 && due.is_none() {
                    due = Some(fault.how);
                }
                fault.nth = fault.nth.saturating_sub(1);
            }
        }
        if let Some(How::Stop) = due {
            self.is_stopped = true;
        }
        if self.is_stopped {
            Some(How::Before)
        } else {
            due
        }
    }
}
