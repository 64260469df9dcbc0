//! The places of a `Live`, one for each session.
ghost use Rattle.std.specs.Prelude.{◌≡◌, None, Some, IfOk, MatchOption, All, slice_set};
ghost use Rattle.live_sessions.specs.Places.{IsFirst, IsUnused, Gives};

use crate::book::{Front, Naming};
use crate::counted::CountedDesk;
use crate::faults::OpenFault;
use crate::limits::PLACES;
use crate::pass::Pass;
use crate::shown::Shown;
use left_right::WriteHandle;
use std::alloc::Global;
use std::marker::Model;
use std::sync::Wait;

/// The passes that are not out, each at the place of its session. Contracts see what is at each place.
#[derive(Drop)]
pub struct Places<J: Naming> {
    passes: Vec<Option<Pass<J>>>,
}

impl<J: Naming> Model for Places<J> {
    ghost use Rattle.std.specs.Prelude.{List, Option};
    ghost use Rattle.live_sessions.specs.Views.{PassView};
    ghost use Rattle.live_sessions.specs.Places.{ArePlaces};

    ghost Value = { List (Option PassView) };

    ghost view = { λ p. p.passes.items };

    ghost invariant = { λ p. ArePlaces p.passes.items };
}

impl<J: Naming> Places<J> {
    /// A pass at each place, which has seen this front. Its readers take what the writer publishes.
    pub fn new<R: Wait + Drop>(
        alloc: Global,
        writer: &WriteHandle<Shown<J>, Shown<J>, R>,
        desk: &CountedDesk,
        front: &Front<J>,
    ) -> Result<Places<J>, OpenFault>
        requires opening { desk.now.opening ≡ J.opening }
        requires front { front.now ≡ desk.now.history }
        ensures { IfOk result (All (IsUnused front.now)) }
    {
        let mut passes = Vec::new(alloc);
        for session in 0..PLACES {
            let Ok(reader) = writer.handle() else {
                return Err(OpenFault::NoReader);
            };
            let last = desk.published().share()?;
            let pass = Pass::new(session, reader, front.again(), last);
            if passes.push(Some(pass)).is_err() {
                return Err(OpenFault::Memory);
            }
        }
        Ok(Places { passes })
    }

    // The lowest place that has a pass.
    fn lowest(&self) -> Option<usize>
        ensures { MatchOption result
            (All (λ place. place ≡ None) self.now) (λ at. IsFirst self.now at) }
    {
        for at in 0..self.passes.len() {
            if self.passes[at].is_some() {
                return Some(at);
            }
        }
        None
    }

    /// Gives the pass of the lowest place that has one. All other places stay as they are.
    pub fn take_lowest(&mut self) -> Option<Pass<J>>
        ensures { Gives self.old result self.new }
    {
        let at = self.lowest()?;
        self.passes[at].take()
    }

    /// Puts a pass back to its place. All other places stay as they are.
    pub fn put(&mut self, pass: Pass<J>)
        ensures { self.new ≡ slice_set self.old pass.session (Some pass) }
    {
        let at = pass.session() as usize;
        self.passes[at] = Some(pass);
    }
}
