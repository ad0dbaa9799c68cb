//! The link itself.
ghost use Rattle.std.specs.Prelude.{◌≡◌, true, false};
ghost use Rattle.iot_link.specs.Links.{opened, connected, broken, arming, passage, after_exchange};

use crate::{Loss, Passage};
use std::marker::Model;

/// A client's link with the server. None of its calls allocates or fails.
#[derive(Clone, Copy, Debug, PartialEq, Eq)]
pub struct Link {
    up: bool,
    armed: Option<Loss>,
}

impl Model for Link {
    ghost use Rattle.iot_link.specs.Links.{LinkState};

    ghost Value = { LinkState };

    ghost view = { λ link. record { up = link.up; armed = link.armed } };

    ghost inverse = { λ link. record { up = link.up; armed = link.armed } };
}

impl Link {
    /// A link that is up and loses nothing.
    pub fn new() -> Link
        ensures { result ≡ opened }
    {
        Link {
            up: true,
            armed: None,
        }
    }

    /// Makes it up. A loss that is armed stays armed.
    pub fn connect(&mut self)
        ensures { self.new ≡ connected true self.old }
    {
        self.up = true;
    }

    /// Makes it not up. A loss that is armed stays armed.
    pub fn disconnect(&mut self)
        ensures { self.new ≡ connected false self.old }
    {
        self.up = false;
    }

    /// Arms a loss, in place of one that is armed already.
    pub fn arm(&mut self, loss: Loss)
        ensures { self.new ≡ arming loss self.old }
    {
        self.armed = Some(loss);
    }

    /// Whether it is up.
    pub fn is_up(&self) -> bool
        ensures { result ≡ self.now.up }
    {
        self.up
    }

    /// Takes notice that the server stopped in the middle of an exchange: no reply comes, so the link is not up.
    pub fn broke(&mut self)
        ensures { self.new ≡ broken }
    {
        *self = Link {
            up: false,
            armed: None,
        };
    }

    /// Takes one exchange with a server that is alive or not, and answers how far it gets. After an exchange in which a
    /// message was lost the link is not up and nothing is armed; otherwise it is as before.
    pub fn outcome(&mut self, server_up: bool) -> Passage
        ensures passage { result ≡ passage self.old server_up }
        ensures link { self.new ≡ after_exchange result self.old }
    {
        let passage = self.passage(server_up);
        if matches!(passage, Passage::RequestLost | Passage::ReplyLost) {
            self.broke();
        }
        passage
    }

    /// How far an exchange gets.
    fn passage(&self, server_up: bool) -> Passage
        ensures { result ≡ passage self.now server_up }
    {
        match (self.up, self.armed) {
            (false, _) => Passage::Away,
            (true, Some(Loss::Request)) => Passage::RequestLost,
            (true, _) if !server_up => Passage::RequestLost,
            (true, Some(Loss::Reply)) => Passage::ReplyLost,
            (true, None) => Passage::Both,
        }
    }
}
