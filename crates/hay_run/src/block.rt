//! A block of lanes, as it is read: its lines, each with its lane.
ghost use Rattle.std.specs.Prelude.{◌≡◌, ◌⊎◌, ◌+◌, ◌^◌, ◌<◌, ◌≤◌, ℕ, List, [], ◌∷◌, true, false, Ok, Err, Some, None, IfOk, OnOk, OnErr, IsErrOf};
ghost use Rattle.std.specs.List.{list_any};
ghost use Rattle.hay_disk.specs.Counts.{Rose};
ghost use Rattle.hay_script.specs.Script.{IsWithinLine, line_of};
ghost use Rattle.hay_legal.specs.Items.{empty_block, with_bad, with_command, inside};
ghost use Rattle.hay_legal.specs.Items.Asked.{Block};
ghost use Rattle.hay_block.specs.Lines.{IsServed};
ghost use Rattle.hay_run.specs.Blocks.{IsBlockOf, IsBlockBelow, is_command};
ghost use Rattle.hay_run.specs.Items.{TookItems, TookOpen};
ghost use Rattle.hay_lines.specs.Lines.{TookPart, TookOver, TookSome};
ghost use Rattle.hay_lines.specs.Stream.{rest_of, budget, Accounts, IsTooLong};

use crate::said::next_said;
use crate::stops::Stop;
use hay_base::{Listed, NoMemory};
use hay_disk::Source;
use hay_legal::turn::Item;
use hay_lines::ScriptLines;
use hay_script::{Command, Line, MAX_COMMANDS, MAX_LANES, MAX_SCRIPT};
use std::alloc::Global;
use std::marker::Model;

/// A line of a block: its number, its lane, which is 0 where the line is bad, and what it asks for.
#[derive(Drop)]
pub struct BlockLine {
    pub line: u64,
    pub lane: u32,
    pub item: Item,
}

impl Model for BlockLine {
    ghost use Rattle.hay_legal.specs.Items.{InBlock};

    ghost Value = { InBlock };

    ghost view = { λ l. record { line = l.line; lane = l.lane; item = l.item } };
}

/// The lines of a block, as far as they were read.
#[derive(Drop)]
pub struct LaneBlock {
    lanes: u32,
    commands: u32,
    lines: Listed<BlockLine>,
}

impl Model for LaneBlock {
    ghost use Rattle.hay_legal.specs.Items.{OpenBlock};

    ghost Value = { OpenBlock };

    ghost view = { λ b. record { lanes = b.lanes; commands = b.commands; lines = b.lines } };
}

impl LaneBlock {
    fn new(alloc: Global, lanes: u32) -> LaneBlock
        ensures { result ≡ empty_block lanes }
    {
        LaneBlock {
            lanes,
            commands: 0,
            lines: Listed::new(alloc),
        }
    }

    pub fn lanes(&self) -> u32
        ensures { result ≡ self.now.lanes }
    {
        self.lanes
    }

    /// Whether one of its lines is a command.
    pub fn has_command(&self) -> bool
        ensures { result ≡ list_any (λ line. is_command line.item) self.now.lines }
    {
        self.lines
            .as_slice()
            .iter()
            .any(|line| matches!(line.item, Item::Command(_)))
    }

    /// Its lines, in their order.
    pub fn into_lines(self) -> Vec<BlockLine>
        ensures { result.items ≡ self.lines }
    {
        self.lines.into_vec()
    }

    fn add_bad(&mut self, number: u64) -> Result<(), NoMemory>
        requires below { IsBlockBelow number self.old }
        ensures added { OnOk result (self.new ≡ with_bad number self.old) }
        ensures below { OnOk result (IsBlockBelow (number + 1) self.new) }
        ensures lanes { self.new.lanes ≡ self.old.lanes }
    {
        self.lines.push(BlockLine {
            line: number,
            lane: 0,
            item: Item::Bad,
        })
    }

    /// Adds a command, unless the block has as many as it may have: then the line is bad.
    fn add(&mut self, number: u64, lane: u32, command: Command) -> Result<(), NoMemory>
        requires below { IsBlockBelow number self.old }
        requires lane { lane < self.old.lanes }
        requires served { IsServed (Item.Command command) }
        ensures added { OnOk result (self.new ≡ with_command number lane command self.old) }
        ensures below { OnOk result (IsBlockBelow (number + 1) self.new) }
        ensures lanes { self.new.lanes ≡ self.old.lanes }
    {
        if self.commands >= MAX_COMMANDS {
            return self.add_bad(number);
        }
        self.commands += 1;
        self.lines.push(BlockLine {
            line: number,
            lane,
            item: Item::Command(command),
        })
    }

    /// Takes a line, and answers whether it closes the block.
    fn take(&mut self, number: u64, said: Line) -> Result<bool, NoMemory>
        requires below { IsBlockBelow number self.old }
        requires within { IsWithinLine said }
        requires says { (text : List ℕ) × (said ≡ line_of (Some self.old.lanes) text) }
        ensures below { OnOk result (IsBlockBelow (number + 1) self.new) }
        ensures lanes { self.new.lanes ≡ self.old.lanes }
        ensures open { result ≡ Ok false → inside number self.old said ≡ ([], Some self.new) }
        ensures closed { result ≡ Ok true → inside number self.old said ≡ (Block self.new.lines ∷ [], None) }
    {
        match said {
            Line::Skip => Ok(false),
            Line::End => Ok(true),
            Line::InLane { lane, command } => {
                self.add(number, lane, command)?;
                Ok(false)
            }
            Line::Bad | Line::Plain(_) | Line::Lanes(_) => {
                self.add_bad(number)?;
                Ok(false)
            }
        }
    }
}

/// Reads the lines of a block to its end, the first of which has this number, and answers with the block and the number
/// of the line behind it. It isn't called once the script's end was met.
fn read_lines<S: Source>(
    alloc: Global,
    script: &mut ScriptLines,
    number: u64,
    mut block: LaneBlock,
    source: &mut S,
) -> Result<(LaneBlock, u64), Stop>
    requires open { script.old.ended ≡ false }
    requires few { number + budget MAX_SCRIPT script.old < 2 ^ 64 }
    requires below { IsBlockBelow number block }
    ensures lines { IfOk result (λ read. IsBlockOf block.lanes read.0.lines × (read.0.lanes ≡ block.lanes)) }
    ensures read { IfOk result (λ read. TookItems number (Some block) (rest_of (S.left source.old) script.old) (Block read.0.lines ∷ []) read.1
        (rest_of (S.left source.new) script.new) script.new.ended) }
    ensures few { IfOk result (λ read. read.1 + budget MAX_SCRIPT script.new ≤ number + budget MAX_SCRIPT script.old) }
    ensures accounts { OnOk result (Accounts (S.left source.old) script.old (S.left source.new) script.new) }
    ensures stopped_accounts { (IsErrOf result Stop.Input ⊎ IsErrOf result Stop.NoMemory) → Accounts (S.left source.old) script.old (S.left source.new) script.new }
    ensures left { OnOk result (budget MAX_SCRIPT script.new ≤ budget MAX_SCRIPT script.old) }
    ensures limit { script.new.taken ≤ MAX_SCRIPT }
    ensures none_held { (IsErrOf result Stop.Input ⊎ IsErrOf result Stop.TooLong) → script.new.bytes ≡ [] }
    ensures input { IsErrOf result Stop.Input → TookOpen TookPart number (Some block) (rest_of (S.left source.old) script.old) (rest_of (S.left source.new) script.new) }
    ensures over { IsErrOf result Stop.TooLong → TookOpen TookOver number (Some block) (rest_of (S.left source.old) script.old) (rest_of (S.left source.new) script.new) }
    ensures memory { IsErrOf result Stop.NoMemory → TookSome (rest_of (S.left source.old) script.old) (rest_of (S.left source.new) script.new) }
    ensures long { IsErrOf result Stop.TooLong → IsTooLong MAX_SCRIPT (S.left source.old) script.old (S.left source.new) }
    ensures stops { OnErr result ((result ≡ Err Stop.Input) ⊎ (result ≡ Err Stop.NoMemory) ⊎ (result ≡ Err Stop.TooLong)) }
    ensures cause { IsErrOf result Stop.Input → Rose (S.fault_count source.old) (S.fault_count source.new) }
    ensures count { S.fault_count source.old ≤ S.fault_count source.new }
{
    let mut next = number;
    'lines: loop {
        let Some(said) = next_said(alloc, script, source, Some(block.lanes()))? else {
            return Ok((block, next));
        };
        let closed = block.take(next, said)?;
        next += 1;
        if closed {
            return Ok((block, next));
        }
        if script.is_ended() {
            return Ok((block, next));
        }
    }
}

/// Reads a block of so many lanes to its end, behind the line that opens it. If the script's end was met there, the
/// block is empty.
pub fn read_block<S: Source>(
    alloc: Global,
    script: &mut ScriptLines,
    number: u64,
    lanes: u32,
    source: &mut S,
) -> Result<(LaneBlock, u64), Stop>
    requires few { number + budget MAX_SCRIPT script.old < 2 ^ 64 }
    requires some { 0 < lanes }
    requires most { lanes ≤ MAX_LANES }
    ensures lines { IfOk result (λ read. IsBlockOf lanes read.0.lines × (read.0.lanes ≡ lanes)) }
    ensures read { script.old.ended ≡ false → IfOk result (λ read. TookItems number (Some (empty_block lanes)) (rest_of (S.left source.old) script.old) (Block read.0.lines ∷ [])
        read.1 (rest_of (S.left source.new) script.new) script.new.ended) }
    ensures empty { script.old.ended ≡ true → IfOk result (λ read. (read.0.lines ≡ []) × (read.1 ≡ number) × (source.new ≡ source.old) × (script.new ≡ script.old)) }
    ensures few { IfOk result (λ read. read.1 + budget MAX_SCRIPT script.new ≤ number + budget MAX_SCRIPT script.old) }
    ensures accounts { OnOk result (Accounts (S.left source.old) script.old (S.left source.new) script.new) }
    ensures stopped_accounts { (IsErrOf result Stop.Input ⊎ IsErrOf result Stop.NoMemory) → Accounts (S.left source.old) script.old (S.left source.new) script.new }
    ensures left { OnOk result (budget MAX_SCRIPT script.new ≤ budget MAX_SCRIPT script.old) }
    ensures limit { script.old.taken ≤ MAX_SCRIPT → script.new.taken ≤ MAX_SCRIPT }
    ensures none_held { (IsErrOf result Stop.Input ⊎ IsErrOf result Stop.TooLong) → script.new.bytes ≡ [] }
    ensures input { IsErrOf result Stop.Input → TookOpen TookPart number (Some (empty_block lanes)) (rest_of (S.left source.old) script.old) (rest_of (S.left source.new) script.new) }
    ensures over { IsErrOf result Stop.TooLong → TookOpen TookOver number (Some (empty_block lanes)) (rest_of (S.left source.old) script.old) (rest_of (S.left source.new) script.new) }
    ensures memory { IsErrOf result Stop.NoMemory → TookSome (rest_of (S.left source.old) script.old) (rest_of (S.left source.new) script.new) }
    ensures long { IsErrOf result Stop.TooLong → IsTooLong MAX_SCRIPT (S.left source.old) script.old (S.left source.new) }
    ensures stops { OnErr result ((result ≡ Err Stop.Input) ⊎ (result ≡ Err Stop.NoMemory) ⊎ (result ≡ Err Stop.TooLong)) }
    ensures open { OnErr result (script.old.ended ≡ false) }
    ensures cause { IsErrOf result Stop.Input → Rose (S.fault_count source.old) (S.fault_count source.new) }
    ensures count { S.fault_count source.old ≤ S.fault_count source.new }
{
    let block = LaneBlock::new(alloc, lanes);
    if script.is_ended() {
        return Ok((block, number));
    }
    read_lines(alloc, script, number, block, source)
}
