//! What a server received and sent.
ghost use Rattle.std.specs.Prelude.{◌≡◌};
ghost use Rattle.iot_server.specs.Traffic.{no_traffic, one_more};

/// How many requests were answered since the start, and how many bytes these and their replies had. Each is counted modulo 2^64.
#[derive(Clone, Copy, Debug, PartialEq, Eq)]
pub struct Traffic {
    pub requests: u64,
    pub received: u64,
    pub sent: u64,
}

impl Traffic {
    /// None so far.
    pub(crate) fn none() -> Traffic
        ensures { result ≡ no_traffic }
    {
        Traffic {
            requests: 0,
            received: 0,
            sent: 0,
        }
    }

    /// Counts a request of so many bytes, with a reply of so many.
    pub(crate) fn count(&mut self, received: usize, sent: usize)
        ensures { self.new ≡ one_more received sent self.old }
    {
        self.requests = self.requests.wrapping_add(1);
        self.received = self.received.wrapping_add(received as u64);
        self.sent = self.sent.wrapping_add(sent as u64);
    }
}
