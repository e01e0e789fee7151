//! Heartbeats, which come down from the auctioneer: a node that hears no newer one for `validity` is silent.

ghost use Rattle.std.specs.Prelude.{◌≡◌, ◌+◌, ◌^◌, ◌<◌, Some, None};
ghost use Rattle.pm_silence.specs.Beating.{is_newer, heard_beat, is_new, is_silent, start_learnt, beaten, beat_of};

/// A heartbeat: the auctioneer's start, and its count since.
#[derive(Clone, Copy, Debug, PartialEq, Eq)]
pub struct Beat {
    pub start: u64,
    pub count: u64,
}

impl Beat {
    /// Whether it is newer than another.
    pub fn is_newer(self, other: Beat) -> bool
        ensures { result ≡ is_newer self other }
    {
        other.start < self.start || (other.start == self.start && other.count < self.count)
    }
}

/// Who hears heartbeats.
#[derive(Clone, Copy, Debug, PartialEq, Eq)]
pub struct Listener {
    newest: Option<Beat>,
    heard: u64,
}

impl Listener {
    /// Begins as if a heartbeat had come now.
    pub fn begin(now: u64) -> Listener
        ensures newest { result.newest ≡ None }
        ensures heard { result.heard ≡ now }
    {
        Listener {
            newest: None,
            heard: now,
        }
    }

    /// Takes a heartbeat, and says whether it is new. It is passed on if it is, and else the newest is said up, to whom sent it.
    pub fn hear(&mut self, beat: Beat, now: u64) -> bool
        ensures listener { self.new ≡ heard_beat self.old beat now }
        ensures new { result ≡ is_new self.old.newest beat }
    {
        let is_new = match self.newest {
            None => true,
            Some(newest) => beat.is_newer(newest),
        };
        if is_new {
            self.newest = Some(beat);
            self.heard = now;
        }
        is_new
    }

    /// When it heard the newest.
    pub fn heard(&self) -> u64
        ensures { result ≡ self.now.heard }
    {
        self.heard
    }

    /// Whether it heard nothing new for `validity`.
    pub fn is_silent(&self, validity: u64, now: u64) -> bool
        ensures { result ≡ is_silent self.now validity now }
    {
        self.heard <= now && validity <= now - self.heard
    }
}

/// Who makes heartbeats: the auctioneer.
#[derive(Clone, Copy, Debug, PartialEq, Eq)]
pub struct Beats {
    start: u64,
    count: u64,
}

impl Beats {
    /// Begins with a stored start.
    pub fn begin(start: u64) -> Beats
        ensures start { result.start ≡ start }
        ensures count { result.count ≡ 0 }
    {
        Beats { start, count: 0 }
    }

    /// Hears what some node has of it, also one that was heard before. If its own start is not greater, its disk was lost.
    pub fn learn(&mut self, known: Beat)
        requires { known.start + 1 < 2 ^ 64 }
        ensures { self.new ≡ start_learnt self.old known }
    {
        if known.start >= self.start {
            self.start = known.start + 1;
            self.count = 0;
        }
    }

    /// Makes the next heartbeat.
    pub fn beat(&mut self) -> Beat
        requires { self.old.count + 1 < 2 ^ 64 }
        ensures beats { self.new ≡ beaten self.old }
        ensures beat { result ≡ beat_of (beaten self.old) }
    {
        self.count += 1;
        Beat {
            start: self.start,
            count: self.count,
        }
    }
}
