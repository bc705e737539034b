//! The board's front, as it stands behind the lock.
ghost use Rattle.std.specs.Prelude.{◌≡◌, ◌++◌, map, IfSome};
ghost use Rattle.hay_front.specs.Fronts.{IsBehind};
ghost use Rattle.hay_thread_tests.specs.LockedBoards.{IsOf, IsPosted, made, post_of};

use crate::board::{Board, Post};
use hay_front::{Front, Seat, Tag};
use hay_turn::Kept;
use std::sync::Wait;

/// A post that was made. The lock's history has it, and no memory.
#[derive(Clone, Copy, Debug, PartialEq, Eq)]
pub struct Act {
    pub tag: Tag,
    pub counted: bool,
}

/// The front of a board, with the number of all posts. End it by `close`.
pub struct LockedBoard {
    pub front: Front<Board>,
    pub posts: usize,
}

impl Kept for LockedBoard {
    type Start = Seat<Board>;

    type Act = Act;

    ghost by = { λ a. a.tag.seat };

    ghost stands = { λ start acts d. IsOf start d.front d.posts acts };
}

impl LockedBoard {
    /// Publishes a post, and gives its place. Where memory is wanting it makes none.
    pub fn post<R: Wait>(&mut self, rt: &R, view: &mut Seat<Board>, act: Act) -> Option<usize>
        requires { view.old.front ≡ self.old.front.shown.front }
        ensures stands { (start acts : _) → IsOf start self.old.front self.old.posts acts → IsOf start self.new.front self.new.posts (acts ++ made act result) }
        ensures place { IfSome result (λ place. place ≡ self.old.posts) }
        ensures seen { IsBehind view.old view.new }
        ensures posted { (start acts : _) → IsOf start self.old.front self.old.posts acts → IfSome result (λ place. IsPosted view.new place (post_of act)) }
    {
        if self.front.is_closed() {
            return None;
        }
        let place = self.posts;
        let more = place.checked_add(1)?;
        let _empty = self.front.row_now(rt, view, &place);
        let post = Post {
            seat: act.tag.seat,
            counted: act.counted,
        };
        let Ok(_receipt) = self.front.publish(rt, view, act.tag, post) else {
            return None;
        };
        self.posts = more;
        Some(place)
    }

    /// Ends the front, and gives the tags of the posts that count.
    pub fn close<R: Wait>(self, rt: &R, views: Vec<Seat<Board>>) -> Vec<Tag>
        ensures { result.items ≡ map (λ e. e.tag) self.front.log }
    {
        let LockedBoard { front, posts: _ } = self;
        front.close(rt, views)
    }
}
