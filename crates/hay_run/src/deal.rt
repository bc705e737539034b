//! The lines of a block, dealt out to their lanes.
ghost use Rattle.std.specs.Prelude.{◌≡◌, ◌<◌, ◌++◌, ◌∷◌, [], length, map, vec_len, IfOk, OnOk};
ghost use Rattle.std.specs.List.{AllByRecursion};
ghost use Rattle.hay_run.specs.Blocks.{AreJobs, ArePlaces, job_of, lane_jobs, with_job};

use crate::block::BlockLine;
use hay_base::NoMemory;
use hay_block::Job;
use std::alloc::Global;

/// Where a line of a block stands: its number, its lane, and how many lines of the lane stand before it.
#[derive(Clone, Copy)]
pub struct Place {
    pub line: u64,
    pub lane: u32,
    pub nth: usize,
}

/// So many lists without jobs.
fn empty_lanes(alloc: Global, lanes: u32) -> Result<Vec<Vec<Job>>, NoMemory>
    ensures many { IfOk result (λ jobs. vec_len jobs ≡ lanes) }
    ensures none { IfOk result (λ jobs. AllByRecursion (λ own. own.items ≡ []) jobs.items) }
{
    let mut jobs = Vec::new(alloc);
    for _ in 0..lanes {
        jobs.push(Vec::new(alloc))?;
    }
    Ok(jobs)
}

/// Adds a line to its lane's jobs, and answers where it stands. `NoMemory` adds nothing.
fn add_job(own: &mut Vec<Job>, line: BlockLine) -> Result<Place, NoMemory>
    ensures place { IfOk result (λ place. place ≡ record { line = line.line; lane = line.lane; nth = length own.old.items }) }
    ensures job { OnOk result (own.new.items ≡ own.old.items ++ job_of line ∷ []) }
{
    let place = Place {
        line: line.line,
        lane: line.lane,
        nth: own.len(),
    };
    own.push(Job {
        line: line.line,
        item: line.item,
    })?;
    Ok(place)
}

/// Deals a line out to its lane, and answers where it stands.
fn deal(jobs: &mut [Vec<Job>], line: BlockLine) -> Result<Place, NoMemory>
    requires { line.lane < length jobs.old }
    ensures place { IfOk result (λ place. place ≡ record { line = line.line; lane = line.lane; nth = length (lane_jobs (map (λ own. own.items) jobs.old) line.lane) }) }
    ensures jobs { OnOk result (map (λ own. own.items) jobs.new ≡ with_job (map (λ own. own.items) jobs.old) line) }
{
    add_job(&mut jobs[line.lane as usize], line)
}

/// The jobs of so many lanes, each with its lines in order, and where each line stands.
pub fn deal_lines(
    alloc: Global,
    lanes: u32,
    lines: Vec<BlockLine>,
) -> Result<(Vec<Vec<Job>>, Vec<Place>), NoMemory>
    requires { AllByRecursion (λ line. line.lane < lanes) lines.items }
    ensures jobs { IfOk result (λ dealt. AreJobs lanes lines.items (map (λ own. own.items) dealt.0.items)) }
    ensures places { IfOk result (λ dealt. ArePlaces lines.items dealt.1.items) }
{
    let mut jobs = empty_lanes(alloc, lanes)?;
    let mut places = Vec::new(alloc);
    for line in lines {
        let place = deal(jobs.as_mut_slice(), line)?;
        places.push(place)?;
    }
    Ok((jobs, places))
}
