//! Scripts of two rounds: a fuse on a replica's disk, a mix of commands, a restart, and reads of all pairs.

use std::alloc::Global;
use std::test::Fail;

/// The cookie of every photo of key 0.
pub const COOKIE: &str = "903df1a0ade0b876";

/// A pair of key 0, by its alternate.
pub type Pair = u64;

const PAIRS: Pair = 5;

/// How many fuses there are: 0 to 60.
pub const FUSES: u64 = 61;

/// Maintenance work on a replica.
#[derive(Clone, Copy)]
pub enum Work {
    Flush,
    Begin,
    Step(u64),
    Finish,
    Compact,
}

#[derive(Clone, Copy)]
pub enum Command {
    Put(Pair),
    Delete(Pair),
    Read(Pair),
    Work { machine: u64, work: Work },
    Fuse { machine: u64, calls: u64 },
    Restart(u64),
}

/// Numbers by a linear congruence.
#[derive(Drop)]
struct Draw {
    state: u64,
}

impl Draw {
    fn number(&mut self) -> u64 {
        self.state = self
            .state
            .wrapping_mul(6_364_136_223_846_793_005)
            .wrapping_add(1_442_695_040_888_963_407);
        self.state >> 33
    }

    fn pair(&mut self) -> Pair {
        self.number() % PAIRS + 1
    }

    fn work(&mut self) -> Work {
        match self.number() % 8 {
            0 => Work::Flush,
            1 | 2 => Work::Begin,
            3..6 => Work::Step(self.number() % 4 + 1),
            6 => Work::Finish,
            _ => Work::Compact,
        }
    }
}

/// The photo that a line puts, as it is read again.
pub fn photo_of(alloc: Global, line: u64) -> Result<String, Fail> {
    if line % 2 == 0 {
        Ok(format!(in alloc; "{line:04}")?)
    } else {
        Ok(format!(in alloc; "x1{line:03}:6a")?)
    }
}

fn work_line(alloc: Global, machine: u64, work: Work) -> Result<String, Fail> {
    let verb = match work {
        Work::Step(cells) => return Ok(format!(in alloc; "step 0 {machine} {cells}\n")?),
        Work::Flush => "flush",
        Work::Begin => "begin",
        Work::Finish => "finish",
        Work::Compact => "compact",
    };
    Ok(format!(in alloc; "{verb} 0 {machine}\n")?)
}

/// A line of the script, with its line feed.
fn line_of(alloc: Global, line: u64, command: Command) -> Result<String, Fail> {
    Ok(match command {
        Command::Put(pair) => {
            let photo = photo_of(alloc, line)?;
            format!(in alloc; "put 0 {pair} {photo}\n")?
        }
        Command::Delete(pair) => format!(in alloc; "del 0 {pair}\n")?,
        Command::Read(pair) => format!(in alloc; "read 0 {pair} {COOKIE}\n")?,
        Command::Work { machine, work } => work_line(alloc, machine, work)?,
        Command::Fuse { machine, calls } => format!(in alloc; "fuse 0 {machine} {calls}\n")?,
        Command::Restart(pick) => format!(in alloc; "restart {pick}\n")?,
    })
}

pub fn script_of(alloc: Global, commands: &[Command]) -> Result<String, Fail> {
    let mut script = String::new(alloc);
    for (line, command) in (1..).zip(commands) {
        script.push_str(line_of(alloc, line, *command)?.as_str())?;
    }
    Ok(script)
}

/// A round of a script: the fuse that stops its changes, and what the restart behind them picks.
#[derive(Clone, Copy)]
pub struct Round {
    pub replicas: u64,
    pub machine: u64,
    pub calls: u64,
    pub pick: u64,
}

/// A compaction of the replica with the fuse, which has copied what stands; then puts, deletes, a few reads, and work on
/// replicas, half of it on that one.
fn push_mix(commands: &mut Vec<Command>, draw: &mut Draw, round: Round) -> Result<(), Fail> {
    for work in [Work::Begin, Work::Step(9)] {
        commands.push(Command::Work {
            machine: round.machine,
            work,
        })?;
    }
    for _ in 0..40 {
        let pair = draw.pair();
        let machine = match draw.number() % 2 {
            0 => round.machine,
            _ => draw.number() % round.replicas.max(1),
        };
        commands.push(match draw.number() % 16 {
            0..5 => Command::Put(pair),
            5..9 => Command::Delete(pair),
            9 => Command::Read(pair),
            _ => Command::Work {
                machine,
                work: draw.work(),
            },
        })?;
    }
    Ok(())
}

/// Each pair is read at two lines in a row.
fn push_reads(commands: &mut Vec<Command>) -> Result<(), Fail> {
    for pair in 1..=PAIRS {
        commands.push(Command::Read(pair))?;
        commands.push(Command::Read(pair))?;
    }
    Ok(())
}

/// A fuse, commands that it stops, a restart, and what stands behind it: a compaction then tells the generation of the replica that
/// failed, and a flush how many of its cells have no record.
fn push_round(commands: &mut Vec<Command>, draw: &mut Draw, round: Round) -> Result<(), Fail> {
    let machine = round.machine;
    commands.push(Command::Fuse {
        machine,
        calls: round.calls,
    })?;
    push_mix(commands, draw, round)?;
    commands.push(Command::Restart(round.pick))?;
    push_reads(commands)?;
    for work in [Work::Begin, Work::Flush] {
        commands.push(Command::Work { machine, work })?;
    }
    Ok(())
}

/// Three photos, this round, one that is drawn, and the end of the compaction that stands.
pub fn commands_of(alloc: Global, first: Round) -> Result<Vec<Command>, Fail> {
    let number = first.calls.wrapping_mul(4).wrapping_add(first.machine);
    let mut draw = Draw {
        state: number.wrapping_mul(1_000_003).wrapping_add(first.pick),
    };
    let mut commands = Vec::new(alloc);
    for pair in 1..=3 {
        commands.push(Command::Put(pair))?;
    }
    push_round(&mut commands, &mut draw, first)?;
    let second = Round {
        replicas: first.replicas,
        machine: draw.number() % first.replicas.max(1),
        calls: draw.number() % FUSES,
        pick: draw.number(),
    };
    push_round(&mut commands, &mut draw, second)?;
    commands.push(Command::Work {
        machine: second.machine,
        work: Work::Finish,
    })?;
    push_reads(&mut commands)?;
    commands.push(Command::Restart(first.pick))?;
    push_reads(&mut commands)?;
    Ok(commands)
}
