ghost use Rattle.std.specs.Prelude.{◌≡◌};

use graph_core::Fragment;
use pie_core::Local;

/// What is counted of a run. A count stops at `u64::MAX`.
#[derive(Clone, Copy)]
pub(crate) struct Counts {
    /// Takes, each with its Give.
    pub(crate) takes: u64,
    /// Owned values that were lower at a Give than at its Take.
    pub(crate) falls: u64,
    /// Events of the journal.
    pub(crate) events: u64,
    /// The mirrors of the values that fell, to which they were sent.
    pub(crate) posts: u64,
}

impl Counts {
    /// Of a run that has done nothing.
    pub(crate) fn none() -> Counts {
        Counts {
            takes: 0,
            falls: 0,
            events: 0,
            posts: 0,
        }
    }

    /// Adds a Take, whose evaluation left these values. It looks at those that fell alone where few did, and else at all.
    pub(crate) fn add(&mut self, part: &Fragment, local: &mut Local)
        ensures { local.new ≡ local.old }
    {
        self.takes = self.takes.saturating_add(1);
        local.gather_fallen();
        match local.fallen() {
            Some(places) => self.add_listed(part, places),
            None => self.add_all(part, local),
        }
    }

    fn add_listed(&mut self, part: &Fragment, places: &[u32]) {
        'places: for place in places {
            self.add_place(part, *place);
        }
    }

    fn add_all(&mut self, part: &Fragment, local: &Local) {
        let mut place = 0u32;
        'places: for (before, value) in local.before().iter().zip(local.values()) {
            if before != value {
                self.add_place(part, place);
            }
            place = place.saturating_add(1);
        }
    }

    /// Adds an owned place whose value fell.
    fn add_place(&mut self, part: &Fragment, place: u32) {
        self.falls = self.falls.saturating_add(1);
        if (place as usize) < part.owned().len() {
            let mirrors = part.routes(place).len() as u64;
            self.posts = self.posts.saturating_add(mirrors);
        }
    }
}
