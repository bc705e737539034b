//! What a queue carries.
ghost use Rattle.std.specs.Prelude.{◌≡◌, ℕ};

/// A job, which clauses know by its name.
pub trait Job: Send + Drop {
    ghost named: { Self → ℕ };

    fn name(&self) -> u64
        ensures { result ≡ named self.now };
}

/// A client's job with its place among the client's jobs, or, without a job, the client's end.
#[derive(Drop)]
pub struct Message<J> {
    pub from: u32,
    pub place: u64,
    pub job: Option<J>,
}
