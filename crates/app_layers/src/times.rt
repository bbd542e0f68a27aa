ghost use Rattle.std.specs.Prelude.{◌≡◌, IfSome};
ghost use Rattle.capture_read.specs.FrameList.{IsTime};
ghost use Rattle.app_layers.specs.Times.{AreTimes, no_times, with_time, since};

/// The times of the frames so far, in nanoseconds since 1970 in UTC.
#[derive(Clone, Copy)]
pub struct Times {
    /// The time of the first frame that has one.
    pub first: Option<i128>,
    /// The time of the latest frame that has one.
    pub latest: Option<i128>,
}

impl Times {
    pub fn none() -> Times
        ensures none { result ≡ no_times }
        ensures times { AreTimes result }
    {
        Times {
            first: None,
            latest: None,
        }
    }

    /// The times behind one frame more.
    #[tactic(auto, unfolding(crate::specs::Times::with_time))]
    pub fn with(self, time: Option<i128>) -> Times
        requires before { AreTimes self }
        requires time { IfSome time IsTime }
        ensures with { result ≡ with_time time self }
        ensures times { AreTimes result }
    {
        match time {
            Some(time) => Times {
                first: Some(self.first.unwrap_or(time)),
                latest: Some(time),
            },
            None => self,
        }
    }
}

/// Nanoseconds since an earlier time, or none where there is no earlier one.
pub fn since(earlier: Option<i128>, time: i128) -> i128
    requires earlier { IfSome earlier IsTime }
    requires time { IsTime time }
    ensures { result ≡ since earlier time }
{
    time - earlier.unwrap_or(time)
}
