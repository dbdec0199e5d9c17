use std::alloc::{AllocError, Global};
use std::sync::atomic::{AtomicBool, AtomicU64, Ordering};

/// How many places a board has, four for each connection of a full front. Where more sockets are open at once some share
/// a place and what is reported there: each is then called once too often, and rests end for that, but none is called too
/// seldom.
pub(crate) const PLACES: usize = 4_096;

/// What the poll has reported of the sockets of a place, and whether somebody waits for that.
#[derive(Drop)]
struct Place {
    /// How many sockets hold it: one at most, as long as there are places for all.
    holders: AtomicU64,
    /// How often something was reported.
    rings: AtomicU64,
    /// How often it was that a peer sends no more.
    ends: AtomicU64,
    /// How many of the sockets wait for a report, since their last call has found nothing.
    waiting: AtomicU64,
    /// After how many rests something was reported for which one waited that has not been called since, where it was.
    due: AtomicU64,
}

/// What the poll has reported, for all sockets to read.
#[derive(Drop)]
pub(crate) struct Board {
    places: Vec<Place>,
    /// How many places were tried for those who wanted one: each in turn.
    tried: AtomicU64,
    looks: AtomicU64,
    now: AtomicU64,
    /// How many rests there were, with one before the first, and how much is due since: the places with something, and
    /// that nobody new is to be let in.
    rests: AtomicU64,
    due: AtomicU64,
    is_closing: AtomicBool,
}

impl Board {
    /// A board on which nothing was reported.
    pub(crate) fn new(alloc: Global) -> Result<Board, AllocError> {
        let mut places = Vec::new(alloc);
        for _ in 0..PLACES {
            places.push(Place {
                holders: AtomicU64::new(0),
                rings: AtomicU64::new(0),
                ends: AtomicU64::new(0),
                waiting: AtomicU64::new(0),
                due: AtomicU64::new(0),
            })?;
        }
        Ok(Board {
            places,
            tried: AtomicU64::new(0),
            looks: AtomicU64::new(0),
            now: AtomicU64::new(0),
            rests: AtomicU64::new(1),
            due: AtomicU64::new(0),
            is_closing: AtomicBool::new(false),
        })
    }

    /// A place for one more socket: one that no other holds, or where there is none, one that it shares.
    pub(crate) fn take_place(&self) -> usize {
        for _ in 0..PLACES {
            let place = self.next_place();
            if self.claim(place) {
                return place;
            }
        }
        let place = self.next_place();
        self.share(place);
        place
    }

    /// The place that is tried next.
    fn next_place(&self) -> usize {
        self.tried.fetch_add(1, Ordering::SeqCst) as usize % PLACES
    }

    /// Takes a place if nobody holds it. It says whether that is so.
    fn claim(&self, place: usize) -> bool {
        match self.places.get(place) {
            Some(place) => place
                .holders
                .compare_exchange(0, 1, Ordering::SeqCst, Ordering::SeqCst)
                .is_ok(),
            None => false,
        }
    }

    /// Takes a place that others hold too.
    fn share(&self, place: usize) {
        if let Some(place) = self.places.get(place) {
            place.holders.fetch_add(1, Ordering::SeqCst);
        }
    }

    /// Notes that a socket holds its place no more, and waits for nothing there.
    pub(crate) fn free_place(&self, place: usize) {
        if let Some(place) = self.places.get(place) {
            place.holders.fetch_sub(1, Ordering::SeqCst);
        }
    }

    /// How often something was reported at a place.
    pub(crate) fn rings(&self, place: usize) -> u64 {
        match self.places.get(place) {
            Some(place) => place.rings.load(Ordering::SeqCst),
            None => 0,
        }
    }

    /// How often it was reported at a place that a peer sends no more.
    pub(crate) fn ends(&self, place: usize) -> u64 {
        match self.places.get(place) {
            Some(place) => place.ends.load(Ordering::SeqCst),
            None => 0,
        }
    }

    /// Notes that something was reported at a place, and whether its peer sends no more.
    pub(crate) fn ring(&self, place: usize, is_end: bool) {
        if let Some(place) = self.places.get(place) {
            self.ring_at(place, is_end);
        }
    }

    /// Notes that anything may have come at each place.
    pub(crate) fn ring_all(&self) {
        for place in &self.places {
            self.ring_at(place, true);
        }
    }

    fn ring_at(&self, place: &Place, is_end: bool) {
        if is_end {
            place.ends.fetch_add(1, Ordering::SeqCst);
        }
        place.rings.fetch_add(1, Ordering::SeqCst);
        let rests = self.rests.load(Ordering::SeqCst);
        if place.waiting.load(Ordering::SeqCst) != 0
            && place.due.swap(rests, Ordering::SeqCst) != rests
        {
            self.due.fetch_add(1, Ordering::SeqCst);
        }
    }

    /// Notes that a socket of a place waits for a report from now on.
    pub(crate) fn wait(&self, place: usize) {
        if let Some(place) = self.places.get(place) {
            place.waiting.fetch_add(1, Ordering::SeqCst);
        }
    }

    /// Notes that a socket of a place waits no more.
    pub(crate) fn leave(&self, place: usize) {
        if let Some(place) = self.places.get(place) {
            place.waiting.fetch_sub(1, Ordering::SeqCst);
        }
    }

    /// Notes that a socket of a place is called, so that nothing is due there, unless another one waits at that place:
    /// what was reported may be for that, which is not called yet.
    pub(crate) fn attend(&self, place: usize) {
        let Some(place) = self.places.get(place) else {
            return;
        };
        if place.waiting.load(Ordering::SeqCst) == 0
            && place.due.load(Ordering::SeqCst) == self.rests.load(Ordering::SeqCst)
        {
            place.due.store(0, Ordering::SeqCst);
            self.due.fetch_sub(1, Ordering::SeqCst);
        }
    }

    /// Whether something is due.
    pub(crate) fn is_due(&self) -> bool {
        self.due.load(Ordering::SeqCst) != 0
    }

    /// Notes that a rest has ended: what was due is no more.
    pub(crate) fn end_rest(&self) {
        self.rests.fetch_add(1, Ordering::SeqCst);
        self.due.store(0, Ordering::SeqCst);
    }

    /// How often the poll was asked.
    pub(crate) fn looks(&self) -> u64 {
        self.looks.load(Ordering::SeqCst)
    }

    /// Notes that the poll was asked.
    pub(crate) fn add_look(&self) {
        self.looks.fetch_add(1, Ordering::SeqCst);
    }

    /// The nanoseconds of the clock when the poll was asked last.
    pub(crate) fn now(&self) -> u64 {
        self.now.load(Ordering::SeqCst)
    }

    /// Notes the nanoseconds of the clock.
    pub(crate) fn set_now(&self, now: u64) {
        self.now.store(now, Ordering::SeqCst);
    }

    /// Whether nobody new is to be let in any more.
    pub(crate) fn is_closing(&self) -> bool {
        self.is_closing.load(Ordering::SeqCst)
    }

    /// Notes that nobody new is to be let in any more. Those who are called next are to hear it at once.
    pub(crate) fn close(&self) {
        self.is_closing.store(true, Ordering::SeqCst);
        self.due.fetch_add(1, Ordering::SeqCst);
    }
}
