//! The end of a line that is refused.
ghost use Rattle.std.specs.Prelude.{◌≡◌};
ghost use Rattle.iq_render.specs.Placed.{IsPlacedSaid};
ghost use Rattle.iq_plex.specs.Doing.{Ends, MayRefuse};

use crate::plex::Plex;
use iq_base::Refusal;
use iq_model::{Reply, Said};

impl Plex {
    /// Refuses the line under way: the names that it took are given back, and its own transaction ends.
    pub(crate) fn refuse(&mut self, line: u32, cause: Refusal) -> Reply
        requires { MayRefuse self.old line cause }
        ensures line { Ends self.old result self.new }
        ensures number { result.line ≡ line }
        ensures placed { IsPlacedSaid 1 1 result.said }
    {
        self.control.refuse(0, line, &cause);
        Reply {
            line,
            said: Said::Refused(cause),
        }
    }
}
