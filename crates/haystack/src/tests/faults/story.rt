//! The transcript of a script, from what its fuses let pass and from the notes of its restarts.

use super::replica::{Content, Done, Replica};
use super::script::{COOKIE, Command, Pair, Work, photo_of};
use super::tally::Tally;
use std::alloc::Global;
use std::collections::BTreeMap;
use std::test::Fail;

/// A change that was answered `failed`, by the replica on this machine.
#[derive(Clone, Copy)]
struct FailedChange {
    line: u64,
    pair: Pair,
    content: Content,
    machine: u64,
}

/// What the commands and notes so far make of the store.
#[derive(Drop)]
pub struct Story<'a> {
    alloc: Global,
    /// What a stop kept of the failed command is looked up here; all else follows.
    transcript: &'a str,
    /// The replica on machine M is the one at M.
    replicas: Vec<Replica>,
    /// The pairs that have a home.
    rows: BTreeMap<Pair, u64>,
    /// How many changes were acknowledged since the last restart.
    position: u64,
    /// The machine that closed the volume.
    frozen: Option<u64>,
    /// The change by which it did.
    failed: Option<FailedChange>,
    pub tally: Tally,
}

impl<'a> Story<'a> {
    pub fn new(alloc: Global, transcript: &'a str, replicas: u64) -> Result<Story<'a>, Fail> {
        let mut all = Vec::new(alloc);
        for _ in 0..replicas {
            all.push(Replica::new(alloc))?;
        }
        Ok(Story {
            alloc,
            transcript,
            replicas: all,
            rows: BTreeMap::new(alloc),
            position: 0,
            frozen: None,
            failed: None,
            tally: Tally::new(),
        })
    }

    /// Whether the transcript has this line.
    fn has(&self, line: &str) -> Result<bool, Fail> {
        let whole = ["\n", line, "\n"].concat(self.alloc)?;
        Ok(self.transcript.contains(whole.as_str()))
    }

    fn replica(&self, machine: u64) -> Result<&Replica, Fail> {
        match self.replicas.get(machine as usize) {
            Some(replica) => Ok(replica),
            None => Err("no such machine".into()),
        }
    }

    fn replica_mut(&mut self, machine: u64) -> Result<&mut Replica, Fail> {
        match self.replicas.get_mut(machine as usize) {
            Some(replica) => Ok(replica),
            None => Err("no such machine".into()),
        }
    }

    /// How many calls have failed.
    fn faults(&self) -> u64 {
        let mut faults = 0_u64;
        for replica in self.replicas.iter() {
            faults = faults.saturating_add(replica.faults());
        }
        faults
    }

    /// A failure closes the volume, and ends its compactions.
    fn freeze(&mut self, machine: u64) {
        self.frozen = Some(machine);
        for replica in self.replicas.iter_mut() {
            replica.drop_run();
        }
    }

    /// Makes the calls of a change, replica by replica, and answers the machine of the first that fails.
    fn first_failed(&mut self, pair: Pair, content: Content) -> Option<u64> {
        for (machine, replica) in (0..).zip(self.replicas.iter_mut()) {
            if !replica.change(pair, content) {
                return Some(machine);
            }
        }
        None
    }

    /// The reply to a change of a pair that has a home, or gets one.
    fn change(&mut self, line: u64, pair: Pair, content: Content) -> Result<String, Fail> {
        if let Some(machine) = self.frozen {
            return self.refusal_text("readonly", machine);
        }
        if !content.is_gone() {
            self.rows.insert(pair, line).ok().ok_or("memory")?;
        }
        let before = self.faults();
        if let Some(machine) = self.first_failed(pair, content) {
            return self.fail(FailedChange {
                line,
                pair,
                content,
                machine,
            });
        }
        if before < self.faults() {
            self.tally.repeats = self.tally.repeats.saturating_add(1);
        }
        self.set(pair, content)?;
        self.changed_text(content)
    }

    /// All replicas have a change.
    fn set(&mut self, pair: Pair, content: Content) -> Result<(), Fail> {
        for replica in self.replicas.iter_mut() {
            replica.set(pair, content)?;
        }
        self.position = self.position.saturating_add(1);
        Ok(())
    }

    fn changed_text(&self, content: Content) -> Result<String, Fail> {
        let (position, rows) = (self.position, self.rows.len());
        if content.is_gone() {
            Ok(format!(in self.alloc; "deleted 0 {position} {rows}")?)
        } else {
            Ok(format!(in self.alloc; "stored 0 {position} {rows} {COOKIE}")?)
        }
    }

    /// Until the restart a failed change shows what stood before.
    fn fail(&mut self, change: FailedChange) -> Result<String, Fail> {
        let machine = change.machine;
        self.tally.changes = self.tally.changes.saturating_add(1);
        self.failed = Some(change);
        self.freeze(machine);
        self.failed_text(machine)
    }

    fn failed_text(&self, machine: u64) -> Result<String, Fail> {
        let faults = self.replica(machine)?.faults();
        Ok(format!(in self.alloc; "failed 0:{machine} {faults}")?)
    }

    fn delete(&mut self, line: u64, pair: Pair) -> Result<String, Fail> {
        let (position, rows) = (self.position, self.rows.len());
        if !self.rows.contains_key(&pair) {
            return Ok(format!(in self.alloc; "unknown {rows}")?);
        }
        let is_gone = self
            .replicas
            .iter()
            .all(|replica| replica.content(pair).is_gone());
        if is_gone && self.frozen.is_none() {
            return Ok(format!(in self.alloc; "gone 0 {position} {rows}")?);
        }
        self.change(line, pair, Content::Gone)
    }

    /// The replica of a line's number is asked first, and answers.
    fn read(&self, line: u64, pair: Pair) -> Result<String, Fail> {
        let (position, rows) = (self.position, self.rows.len());
        if !self.rows.contains_key(&pair) {
            return Ok(format!(in self.alloc; "unknown {rows}")?);
        }
        let machine = line % (self.replicas.len() as u64).max(1);
        Ok(match self.replica(machine)?.content(pair) {
            Content::Photo { line } => {
                let photo = photo_of(self.alloc, line)?;
                format!(in self.alloc; "photo 0 {machine} {position} {rows} {photo}")?
            }
            Content::Gone => format!(in self.alloc; "gone 0 {machine} {position} {rows}")?,
        })
    }

    /// What failed before a restart and may have been kept shows at the first work behind it: a flush whose block was written has
    /// left no cell without a record, and behind a switch whose row was written the next generation is made.
    fn settle(&mut self, line: u64, machine: u64, work: Work) -> Result<(), Fail> {
        match work {
            Work::Flush => self.settle_flush(line, machine),
            Work::Begin => self.settle_switch(line, machine),
            _ => Ok(()),
        }
    }

    fn settle_flush(&mut self, line: u64, machine: u64) -> Result<(), Fail> {
        if let Some(bare) = self.replica(machine)?.bare_if_flushed() {
            let reply = format!(in self.alloc; "{line} flushed 0:{machine} {bare}")?;
            let wrote = self.has(reply.as_str())?;
            self.replica_mut(machine)?.settle_flush(wrote);
        }
        Ok(())
    }

    fn settle_switch(&mut self, line: u64, machine: u64) -> Result<(), Fail> {
        if let Some(current) = self.replica(machine)?.generation_if_switched() {
            let goal = current.saturating_add(1);
            let reply = format!(in self.alloc; "{line} begun 0:{machine} {goal}")?;
            let wrote = self.has(reply.as_str())?;
            self.replica_mut(machine)?.settle_switch(wrote);
        }
        Ok(())
    }

    /// The reply to work on a replica.
    fn work(&mut self, line: u64, machine: u64, work: Work) -> Result<String, Fail> {
        if let Some(frozen) = self.frozen {
            return self.refusal_text("readonly", frozen);
        }
        self.settle(line, machine, work)?;
        let before = self.faults();
        let replica = self.replica_mut(machine)?;
        let done = match work {
            Work::Flush => replica.flush(),
            Work::Begin => replica.begin(),
            Work::Step(cells) => replica.step(cells)?,
            Work::Finish => replica.finish()?,
            Work::Compact => replica.compact()?,
        };
        let rose = before < self.faults();
        self.tally.count(work, done, rose);
        self.done_text(machine, done)
    }

    fn done_text(&mut self, machine: u64, done: Done) -> Result<String, Fail> {
        let (word, number) = match done {
            Done::Flushed(records) => ("flushed", records),
            Done::Begun(goal) => ("begun", goal),
            Done::Stepped(cells) => ("stepped", cells),
            Done::Compacted(goal) => ("compacted", goal),
            Done::Busy(goal) => ("busy", goal),
            Done::Idle => return self.refusal_text("idle", machine),
            Done::ReadOnly => return self.refusal_text("readonly", machine),
            Done::Failed => return self.failed_text(machine),
            Done::Unsure => {
                self.freeze(machine);
                return self.failed_text(machine);
            }
        };
        Ok(format!(in self.alloc; "{word} 0:{machine} {number}")?)
    }

    fn refusal_text(&self, word: &str, machine: u64) -> Result<String, Fail> {
        Ok(format!(in self.alloc; "{word} 0:{machine}")?)
    }

    /// Whether a replica has kept a change: those below the one that failed have it, those above have not, and of that one the
    /// transcript tells. A delete counts as kept where nothing stood.
    fn is_kept(&self, change: FailedChange, machine: u64) -> Result<bool, Fail> {
        let replica = self.replica(machine)?;
        if change.content.is_gone() && replica.content(change.pair).is_gone() {
            return Ok(true);
        }
        if machine == change.machine {
            return self.has(format!(in self.alloc; "kept 0:{machine} {}", change.line)?.as_str());
        }
        Ok(machine < change.machine)
    }

    /// The note of a replica on the change that failed.
    fn note(&mut self, change: FailedChange, machine: u64) -> Result<String, Fail> {
        let is_kept = self.is_kept(change, machine)?;
        self.tally.note(is_kept);
        if is_kept {
            self.replica_mut(machine)?.set(change.pair, change.content)?;
        }
        let (word, line) = (if is_kept { "kept" } else { "lost" }, change.line);
        Ok(format!(in self.alloc; "\n{word} 0:{machine} {line}")?)
    }

    /// The reply to a restart, and the notes on the change that failed.
    fn restart(&mut self) -> Result<String, Fail> {
        self.position = 0;
        self.frozen = None;
        for replica in self.replicas.iter_mut() {
            replica.stop();
        }
        let mut reply = format!(in self.alloc; "restarted {}", self.rows.len())?;
        if let Some(change) = self.failed.take() {
            for machine in 0..self.replicas.len() {
                let note = self.note(change, machine as u64)?;
                reply.push_str(note.as_str())?;
            }
        }
        Ok(reply)
    }

    fn reply(&mut self, line: u64, command: Command) -> Result<String, Fail> {
        match command {
            Command::Put(pair) => self.change(line, pair, Content::Photo { line }),
            Command::Delete(pair) => self.delete(line, pair),
            Command::Read(pair) => self.read(line, pair),
            Command::Work { machine, work } => self.work(line, machine, work),
            Command::Fuse { machine, calls } => {
                self.replica_mut(machine)?.fuse(calls);
                Ok(format!(in self.alloc; "fused 0:{machine} {calls}")?)
            }
            Command::Restart(_) => self.restart(),
        }
    }

    /// The transcript that the script must have.
    pub fn replies(&mut self, commands: &[Command]) -> Result<String, Fail> {
        let replicas = self.replicas.len();
        let mut replies = format!(in self.alloc; "haystack {replicas} 1 {replicas} 67108864\n")?;
        for (line, command) in (1..).zip(commands) {
            let reply = self.reply(line, *command)?;
            replies.push_str(format!(in self.alloc; "{line} {reply}\n")?.as_str())?;
        }
        Ok(replies)
    }
}
