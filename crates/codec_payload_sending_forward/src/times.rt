//! The RTP times of a viewer's stream, which is made of packets of one source after another.

ghost use Rattle.std.specs.Prelude.{◌≡◌, ◌+◌, ◌%◌};
ghost use Rattle.codec_payload_sending_forward.specs.Times.{after_time, begun_times, later, switched_times, time_as};

/// The map from the RTP times of a source to those of a viewer's stream, in ticks of the RTP clock, modulo 2^32.
///
/// The time sent is the time received plus an offset, which stays until the next switch. At a switch the time goes on by the given
/// ticks from the highest time that was sent, so it never goes back. Does not allocate.
#[derive(Clone, Copy, Debug, PartialEq, Eq)]
pub struct Retiming {
    /// What is added to a time.
    offset: u32,
    /// The highest time that was sent.
    highest: u32,
}

/// Returns the later of two times that are less than 2^31 ticks apart.
fn later(a: u32, b: u32) -> u32
    ensures { result ≡ later a b }
{
    if b.wrapping_sub(a) < 1 << 31 { b } else { a }
}

impl Retiming {
    /// Returns the map with which the source's time `time` is sent as `sent`.
    pub fn new(time: u32, sent: u32) -> Retiming
        ensures { result ≡ begun_times time sent }
    {
        Retiming {
            offset: sent.wrapping_sub(time),
            highest: sent,
        }
    }

    /// Returns the time that a packet with this time of the source is sent with.
    pub fn sent_as(&self, time: u32) -> u32
        ensures { result ≡ time_as self.now time }
    {
        time.wrapping_add(self.offset)
    }

    /// Records that a packet with this time of the source was sent. The highest time is the later one, if both are less than 2^31
    /// ticks apart.
    pub fn record(&mut self, time: u32)
        ensures { self.new ≡ after_time time self.old }
    {
        self.highest = later(self.highest, self.sent_as(time));
    }

    /// Returns the time that the first packet of another source is sent with, if `ticks` have passed since the highest time
    /// that was sent.
    pub fn next_time(&self, ticks: u32) -> u32
        ensures { result ≡ (self.now.highest + ticks) % 4294967296 }
    {
        self.highest.wrapping_add(ticks)
    }

    /// Goes over to another source, whose packet with this time is sent with [`Retiming::next_time`].
    pub fn switch(&mut self, time: u32, ticks: u32)
        ensures { self.new ≡ switched_times time ticks self.old }
    {
        *self = Retiming::new(time, self.next_time(ticks));
    }
}
