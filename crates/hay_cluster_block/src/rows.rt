//! The rows that were added in a block, with their volumes.
ghost use Rattle.std.specs.Prelude.{◌≡◌, ◌<◌, ◌==◌, ℕ, None, Some, map, filter_map, IfOk, IfSome, OnOk, if◌then◌else◌};
ghost use Rattle.std.specs.List.{AllByRecursion};
ghost use Rattle.std.specs.Option.{option_or};
ghost use Rattle.hay_reply.specs.Fits.{FitsRow};
ghost use Rattle.hay_block.specs.Stores.{line_of_tag};
ghost use Rattle.hay_directory.specs.State.{home_of};
ghost use Rattle.hay_cluster_block.specs.Notes.{AreWithin};
ghost use Rattle.hay_cluster_block.specs.Rows.{KeptWithin, all_jobs, home_at, home_by, home_if, home_kept, pair_put, row_by, rows_at};

use hay_base::NoMemory;
use hay_block::Job;
use hay_directory::Directory;
use hay_disk::Disk;
use hay_front::Tag;
use hay_legal::turn::Item;
use hay_needle::Pair;
use hay_reply::LineVolume;
use hay_script::Command;
use std::alloc::Global;
use std::collections::HashMap;
use std::marker::Model;

/// The homes of the pairs that lines put, by line.
#[derive(Drop)]
struct LineHomes {
    volumes: HashMap<u64, u32>,
}

impl Model for LineHomes {
    ghost use Rattle.std.specs.Prelude.{ℕ, List};

    ghost Value = { List (ℕ × ℕ) };

    ghost view = { λ h. h.volumes.entries };
}

// The pair of a put.
fn put_of(command: &Command) -> Option<Pair>
    ensures { result ≡ pair_put command.now }
{
    match command {
        Command::Put { pair, photo: _ } => Some(*pair),
        Command::Read { .. }
        | Command::Get { .. }
        | Command::Del { .. }
        | Command::Url { .. }
        | Command::Flush { .. }
        | Command::Compact { .. }
        | Command::Begin { .. }
        | Command::Step { .. }
        | Command::Finish { .. }
        | Command::Drain { .. }
        | Command::Undrain { .. }
        | Command::Fuse { .. }
        | Command::FuseDir { .. }
        | Command::Restart { .. } => None,
    }
}

// The home of the pair that a line puts.
fn home_of_item<D: Disk>(directory: &Directory<D>, item: &Item) -> Option<u32>
    ensures is { result ≡ home_by (home_of directory.now) item.now }
    ensures below { IfSome result (λ volume. volume < directory.now.settings.volumes) }
{
    match item {
        Item::Command(command) => directory.home(put_of(command)?),
        Item::Bad => None,
    }
}

impl LineHomes {
    fn new(alloc: Global) -> LineHomes
        ensures { (line : ℕ) → home_kept result line ≡ None }
    {
        LineHomes {
            volumes: HashMap::new(alloc),
        }
    }

    fn get(&self, line: u64) -> Option<u32>
        ensures { result ≡ home_kept self.now line }
    {
        self.volumes.get(&line).copied()
    }

    fn insert(&mut self, line: u64, volume: u32) -> Result<(), NoMemory>
        ensures { OnOk result ((other : ℕ) → home_kept self.new other ≡ (if line == other then Some volume else home_kept self.old other)) }
    {
        self.volumes.insert(line, volume)?;
        Ok(())
    }

    // Adds a line behind the others: one of its number that has a home keeps it.
    fn add<D: Disk>(&mut self, directory: &Directory<D>, job: &Job) -> Result<(), NoMemory>
        ensures homes { OnOk result ((line : ℕ) → home_kept self.new line ≡ option_or (home_kept self.old line) (home_if (home_of directory.now) job.now line)) }
        ensures within { KeptWithin directory.now.settings.volumes self.old → OnOk result (KeptWithin directory.now.settings.volumes self.new) }
    {
        if self.get(job.line).is_some() {
            return Ok(());
        }
        match home_of_item(directory, &job.item) {
            Some(volume) => self.insert(job.line, volume),
            None => Ok(()),
        }
    }

    // Adds the lines of a lane.
    fn add_lane<D: Disk>(&mut self, directory: &Directory<D>, jobs: &[Job]) -> Result<(), NoMemory>
        ensures homes { OnOk result ((line : ℕ) → home_kept self.new line ≡ option_or (home_kept self.old line) (home_at (home_of directory.now) jobs.now line)) }
        ensures within { KeptWithin directory.now.settings.volumes self.old → OnOk result (KeptWithin directory.now.settings.volumes self.new) }
    {
        for job in jobs {
            self.add(directory, job)?;
        }
        Ok(())
    }

    // The homes by the lines of all lanes.
    fn of_jobs<D: Disk>(
        alloc: Global,
        directory: &Directory<D>,
        jobs: &[Vec<Job>],
    ) -> Result<LineHomes, NoMemory>
        ensures homes { IfOk result (λ homes. (line : ℕ) → home_kept homes line ≡ home_at (home_of directory.now) (all_jobs jobs.now) line) }
        ensures within { IfOk result (KeptWithin directory.now.settings.volumes) }
    {
        let mut homes = LineHomes::new(alloc);
        for own in jobs {
            homes.add_lane(directory, own.as_slice())?;
        }
        Ok(homes)
    }

    fn row(&self, line: u64) -> Option<LineVolume>
        ensures is { result ≡ row_by line (home_kept self.now line) }
        ensures fits { IfSome result FitsRow }
    {
        let volume = self.get(line)?;
        Some(LineVolume { line, volume })
    }
}

// The rows of these tags' lines.
fn rows_by(alloc: Global, homes: &LineHomes, added: &[Tag]) -> Result<Vec<LineVolume>, NoMemory>
    ensures rows { IfOk result (λ rows. rows.items ≡ filter_map (λ line. row_by line (home_kept homes.now line)) (map line_of_tag added.now)) }
    ensures fits { IfOk result (λ rows. AllByRecursion FitsRow rows.items) }
{
    let mut rows = Vec::with_capacity(alloc, added.len())?;
    for tag in added {
        if let Some(row) = homes.row(tag.line) {
            rows.push_reserved(row);
        }
    }
    Ok(rows)
}

/// The rows of these tags, by the lines of the lanes and the homes behind them.
pub(crate) fn added_rows<D: Disk>(
    alloc: Global,
    directory: &Directory<D>,
    jobs: &[Vec<Job>],
    added: &[Tag],
) -> Result<Vec<LineVolume>, NoMemory>
    ensures rows { IfOk result (λ rows. rows.items ≡ rows_at (home_of directory.now) (all_jobs jobs.now) (map line_of_tag added.now)) }
    ensures within { IfOk result (λ rows. AreWithin directory.now.settings.volumes rows.items) }
    ensures fits { IfOk result (λ rows. AllByRecursion FitsRow rows.items) }
{
    if added.is_empty() {
        return Ok(Vec::new(alloc));
    }
    let homes = LineHomes::of_jobs(alloc, directory, jobs)?;
    rows_by(alloc, &homes, added)
}
