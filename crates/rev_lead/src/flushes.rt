//! What is known of flushes, which a log does not show.

/// A flush that comes: it is shown by an event that waits.
#[derive(Clone, Copy)]
struct Ahead {
    // an item of this cas number was held before it
    cas: u64,
    // items up to this cas number were stored before it
    stored: u64,
    // the number of the event that says that the item was flushed
    shown: u64,
}

/// What is known of flushes. A flush lets all items go that were stored before it: those up to a cas number.
#[derive(Clone, Copy)]
pub struct Flushes {
    // items up to this cas number are known to be flushed
    known: u64,
    ahead: Option<Ahead>,
}

impl Flushes {
    /// None is known.
    pub fn none() -> Flushes {
        Flushes {
            known: 0,
            ahead: None,
        }
    }

    /// Whether any is known.
    pub fn is_any(&self) -> bool {
        self.known != 0
    }

    /// Whether an item of this cas number is known to be flushed.
    pub fn has(&self, cas: u64) -> bool {
        cas <= self.known
    }

    // The flush that was to come has come.
    fn come(&mut self, ahead: Ahead) {
        self.known = self.known.max(ahead.stored);
        self.ahead = None;
    }

    /// The event of this number is played. Where it shows the flush that was to come, that has come.
    pub fn reach(&mut self, number: u64) {
        match self.ahead {
            Some(ahead) if ahead.shown <= number => self.come(ahead),
            _ => {}
        }
    }

    /// An item of this cas number was flushed. Where the flush that was to come let that one go, it has come.
    pub fn note(&mut self, cas: u64) {
        self.known = self.known.max(cas);
        match self.ahead {
            Some(ahead) if self.has(ahead.cas) => self.come(ahead),
            _ => {}
        }
    }

    /// An item of this cas number is found, where items up to `stored` were stored: a flush that is to let it go has
    /// not come yet.
    pub fn find(&mut self, cas: u64, stored: u64) {
        match &mut self.ahead {
            Some(ahead) if cas <= ahead.stored => ahead.stored = stored,
            _ => {}
        }
    }

    /// An item of this cas number is held, where items up to `stored` were stored, and the event of the number `shown`
    /// is the next of its key, and says that it was flushed.
    pub fn expect(&mut self, cas: u64, stored: u64, shown: u64) {
        match self.ahead {
            None => self.ahead = Some(Ahead { cas, stored, shown }),
            // both items are held, so the same flush lets both go
            Some(ahead) if cas <= ahead.stored => {
                self.ahead = Some(Ahead {
                    cas: cas.min(ahead.cas),
                    stored,
                    shown: shown.min(ahead.shown),
                });
            }
            _ => {}
        }
    }

    /// Whether a flush comes that lets an item of this cas number go, and that an event in front of this one shows.
    pub fn comes_before(&self, cas: u64, number: u64) -> bool {
        match self.ahead {
            Some(ahead) => cas <= ahead.stored && ahead.shown < number,
            None => false,
        }
    }
}
