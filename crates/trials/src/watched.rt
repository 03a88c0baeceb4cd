// A post that is looked at from outside: it passes everything on, and follows the privilege as it moves.
ghost use Rattle.std.proofs.Common.{rules};

use cable::message::Message;
use cable::number::LaneNo;
use cable::refusal::Refusal;
use post::post::Post;
use std::cell::Cell;
use std::rc::Rc;
use tree::tree::Tree;

// Where the privilege is.
#[derive(Clone, Copy, PartialEq, Eq, Debug)]
pub(crate) enum Location {
    // at this cabinet
    At(u32),
    // under way on this lane
    On(u32),
    // it was sent from where it was not, or came from where it was not
    Astray,
}

#[derive(Drop)]
pub(crate) struct Watched<P> {
    post: P,
    tree: Tree,
    location: Rc<Cell<Location>>,
}

impl<P> Watched<P> {
    pub(crate) fn new(post: P, tree: Tree, location: Rc<Cell<Location>>) -> Watched<P> {
        Watched {
            post,
            tree,
            location,
        }
    }

    // From the one location to the other, if the lane has both and the privilege was at the first.
    fn moves(&self, way: Option<(Location, Location)>) {
        let next = match way {
            Some((from, to)) if self.location.get() == from => to,
            _ => Location::Astray,
        };
        self.location.set(next);
    }
}

impl<P: Post> Post for Watched<P> {
    ghost means = { λ w. P.Post.means w.post };

    ghost puts = { λ w l m r v. P.Post.puts w.post l m r v.post };

    ghost pulls = { λ w l r v. P.Post.pulls w.post l r v.post };

    ghost sound = { Prim.search rules };

    ghost put_meant = { Prim.search rules };

    ghost pull_meant = { Prim.search rules };

    fn put(&mut self, lane: LaneNo, message: Message) -> Result<(), Refusal> {
        if message == Message::Privilege {
            let ends = self.tree.ends(lane);
            self.moves(ends.map(|(from, _)| (Location::At(from.0), Location::On(lane.0))));
        }
        self.post.put(lane, message)
    }

    fn pull(&mut self, lane: LaneNo) -> Result<Option<Message>, Refusal> {
        let came = self.post.pull(lane)?;
        if came == Some(Message::Privilege) {
            let ends = self.tree.ends(lane);
            self.moves(ends.map(|(_, to)| (Location::On(lane.0), Location::At(to.0))));
        }
        Ok(came)
    }

    fn count(&self, lane: LaneNo) -> Result<usize, Refusal> {
        self.post.count(lane)
    }

    fn patience(&self) -> u32 {
        self.post.patience()
    }
}
