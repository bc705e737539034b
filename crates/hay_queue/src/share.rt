//! Which lanes a worker serves.
ghost use Rattle.std.specs.Prelude.{◌≡◌, ◌↔◌, ◌<◌, ◌≤◌, ℕ};
ghost use Rattle.hay_queue.specs.Shares.{lane_at};

/// A worker's number, its seat, and the number of workers. It serves the lanes of its own number, and on from there each of that many.
#[derive(Clone, Copy, Debug)]
pub(crate) struct Share {
    pub seat: usize,
    pub seats: usize,
}

impl Share {
    // The lane that is this client of the worker's desk.
    pub(crate) fn lane(self, client: usize, lanes: usize) -> usize
        requires { lane_at self.seat self.seats client < lanes }
        ensures { result ≡ lane_at self.seat self.seats client }
    {
        self.seat + client * self.seats
    }

    // How many of so many lanes the worker serves.
    pub(crate) fn clients(self, lanes: usize) -> usize
        requires { self.seat < self.seats }
        ensures few { result ≤ lanes }
        ensures all { (client : ℕ) → (client < result) ↔ (lane_at self.seat self.seats client < lanes) }
    {
        if self.seat < lanes {
            (lanes - self.seat).div_ceil(self.seats)
        } else {
            0
        }
    }
}
