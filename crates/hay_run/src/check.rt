//! A check of a store: what the disk in each slot is, told in a line each. No changing call is made.
ghost use Rattle.std.specs.Prelude.{◌≡◌, ◌⊎◌, ℕ, ◌+◌, ◌<◌, ◌≤◌, ◌++◌, List, false, Err, IfOk, IfErr, OnOk, OnErr, IsErrOf, string_bytes};
ghost use Rattle.hay_disk.specs.Counts.{IsCounted, Rose};
ghost use Rattle.hay_disk.specs.Disk.{KeepsOthers};
ghost use Rattle.hay_disk.specs.Streams.{Wrote, WrotePart};
ghost use Rattle.hay_mount.specs.Mounts.{AreIn, SameFrom};
ghost use Rattle.hay_needle.specs.declared.settings.Super.{Super};
ghost use Rattle.hay_legal.specs.Known as known;
ghost use Rattle.hay_legal.specs.Known.{slot_of};
ghost use Rattle.hay_directory.specs.Rows as rows;
ghost use Rattle.hay_logical.specs.Fits.{super_of};
ghost use Rattle.hay_cluster.specs.Outside.{outside_of, read_of};
ghost use Rattle.hay_cluster.specs.Store.{IsBuilt};
ghost use Rattle.hay_run.specs.Turns.{Appends};
ghost use Rattle.hay_run.specs.Checking as checks;
ghost use Rattle.hay_run.specs.Checking.{ChecksTo, IsFaultAt, IsUnchanged, IsVerdictIn, IsVerdictOn};

use crate::stops::Stop;
use crate::writing::{write_header, write_refusal, write_text};
use hay_base::NoMemory;
use hay_check::{CheckFault, Verdict, check_journal, check_replica};
use hay_cluster::ClusterFault;
use hay_disk::{Disk, Shelf, ShelfFault, Sink};
use hay_needle::{FileKind, Settings, Super};
use std::alloc::Global;

/// The status where no disk is damaged.
const SOUND: u8 = 0;

/// The status where a disk is damaged.
const DAMAGED: u8 = 8;

fn write_words(verdict: &Verdict, out: &mut String) -> Result<(), NoMemory>
    ensures { OnOk result (string_bytes out.new ≡ string_bytes out.old ++ checks.verdict_text verdict.now) }
{
    match verdict {
        Verdict::Void => write!(out, "void")?,
        Verdict::Rows { rows } => write!(out, "rows {rows}")?,
        Verdict::Whole {
            generation,
            cells,
            live,
            records,
            end,
            old,
        } => write!(
            out,
            "whole {generation} {cells} {live} {records} {end} {old}"
        )?,
        Verdict::Damaged { file, at } => write!(out, "damaged {file} {at}")?,
    }
    Ok(())
}

/// The line of the disk in a slot.
fn line_of(alloc: Global, slot: u32, verdict: &Verdict) -> Result<String, NoMemory>
    ensures { IfOk result (λ line. string_bytes line ≡ checks.verdict_line slot verdict.now) }
{
    let mut line = String::new(alloc);
    write!(line, "check {slot} ")?;
    write_words(verdict, &mut line)?;
    writeln!(line)?;
    Ok(line)
}

/// Writes the line of the disk in a slot.
fn write_verdict<K: Sink>(
    alloc: Global,
    slot: u32,
    verdict: &Verdict,
    sink: &mut K,
) -> Result<(), Stop>
    ensures wrote { OnOk result (Wrote (K.written sink.old) (checks.verdict_line slot verdict.now) (K.written sink.new)) }
    ensures part { OnErr result (WrotePart (K.written sink.old) (checks.verdict_line slot verdict.now) (K.written sink.new)) }
    ensures stops { OnErr result ((result ≡ Err Stop.Output) ⊎ (result ≡ Err Stop.NoMemory)) }
    ensures cause { IsErrOf result Stop.Output → Rose (K.fault_count sink.old) (K.fault_count sink.new) }
    ensures count { K.fault_count sink.old ≤ K.fault_count sink.new }
    ensures appends { Appends (K.written sink.old) (K.written sink.new) }
{
    let line = line_of(alloc, slot, verdict)?;
    write_text(sink, line.as_bytes())
}

fn is_damaged(verdict: &Verdict) -> bool
    ensures { result ≡ checks.is_damaged verdict.now }
{
    match verdict {
        Verdict::Damaged { .. } => true,
        Verdict::Void | Verdict::Rows { .. } | Verdict::Whole { .. } => false,
    }
}

fn journal_super(settings: &Settings) -> Super
    ensures { result ≡ rows.journal_super settings.now }
{
    Super {
        settings: *settings,
        kind: FileKind::Journal,
        volume: 0,
        replica: 0,
        generation: 0,
    }
}

/// The superblock of the replica whose disk is in a slot.
fn super_at(settings: &Settings, slot: u32) -> Super
    requires behind { 0 < slot }
    requires some { 0 < settings.now.replicas }
    ensures { (v j : ℕ) → j < settings.now.replicas → slot ≡ slot_of settings.now v j → result ≡ super_of settings.now v j }
{
    let place = slot - 1;
    Super {
        settings: *settings,
        kind: FileKind::Volume,
        volume: place / settings.replicas,
        replica: place % settings.replicas,
        generation: 0,
    }
}

/// Checks the disk of a slot.
fn check_disk<D: Disk>(
    alloc: Global,
    settings: &Settings,
    slot: u32,
    disk: &mut D,
) -> Result<Verdict, CheckFault>
    requires { IsBuilt settings.now }
    ensures verdict { D.Tells → IfOk result (IsVerdictOn settings.now slot (λ n. (D.files disk.old n).now)) }
    ensures kind { IfOk result (IsVerdictIn slot) }
    ensures same { D.Tells → D.files disk.new ≡ D.files disk.old }
    ensures failed { IfErr result (λ fault. (faults : ℕ) → fault ≡ CheckFault.Failed faults → Rose (D.fault_count disk.old) (D.fault_count disk.new) × (faults ≡ D.fault_count disk.new)) }
    ensures counts { D.fault_count disk.old ≤ D.fault_count disk.new }
    ensures fuses { D.fuse_count disk.new ≡ D.fuse_count disk.old }
{
    if slot == 0 {
        check_journal(disk, &journal_super(settings))
    } else {
        check_replica(alloc, disk, &super_at(settings, slot))
    }
}

/// A disk that was not checked.
fn not_checked(slot: u32, fault: CheckFault) -> ClusterFault
    ensures { result ≡ checks.not_checked slot fault }
{
    match fault {
        CheckFault::Failed { faults } => ClusterFault::Failed { slot, faults },
        CheckFault::NoMemory => ClusterFault::NoMemory,
    }
}

/// Takes the disk of a slot, checks it and gives it back.
fn check_slot<H: Shelf>(
    alloc: Global,
    settings: &Settings,
    slot: u32,
    shelf: &mut H,
) -> Result<Verdict, ClusterFault>
    requires built { IsBuilt settings.now }
    requires disk_in { (H.disks shelf.old slot).is_out ≡ false }
    ensures verdict { H.Disk.Tells → IfOk result (IsVerdictOn settings.now slot (read_of (H.disks shelf.old slot))) }
    ensures kind { IfOk result (IsVerdictIn slot) }
    ensures fault { IfErr result (IsFaultAt slot (H.fault_count shelf.old) (H.fault_count shelf.new)
        (H.disks shelf.old slot).fault_count (H.disks shelf.new slot).fault_count) }
    ensures unchanged { IsUnchanged H.Disk.Tells (H.disks shelf.old slot) (H.disks shelf.new slot) }
    ensures others { KeepsOthers slot (H.disks shelf.old) (H.disks shelf.new) }
    ensures lanes { H.arms shelf.new ≡ H.arms shelf.old }
    ensures shelf { H.fault_count shelf.old ≤ H.fault_count shelf.new }
{
    let mut disk = match shelf.take_disk(slot) {
        Ok(disk) => disk,
        Err(ShelfFault::Failed) => {
            return Err(ClusterFault::Shelf {
                faults: shelf.faults(),
            });
        }
        Err(ShelfFault::NoMemory) => return Err(ClusterFault::NoMemory),
    };
    let checked = check_disk(alloc, settings, slot, &mut disk);
    shelf.give_disk(slot, disk);
    match checked {
        Ok(verdict) => Ok(verdict),
        Err(fault) => Err(not_checked(slot, fault)),
    }
}

/// How many disks a store has.
fn disk_count(settings: &Settings) -> u32
    requires { IsBuilt settings.now }
    ensures { result ≡ known.disk_count settings.now }
{
    1 + settings.volumes * settings.replicas
}

/// Writes the header, and checks the disks from slot 0 upwards and writes the line of each. `Ok` is whether one of them is
/// damaged.
fn check_slots<H: Shelf, K: Sink>(
    alloc: Global,
    settings: &Settings,
    sink: &mut K,
    shelf: &mut H,
) -> Result<bool, Stop>
    requires built { IsBuilt settings.now }
    requires disks_in { AreIn (known.disk_count settings.now) (H.disks shelf.old) }
    ensures checked { ChecksTo H.Disk.Tells settings.now (checks.check_status result)
        (outside_of (H.fault_count shelf.old) (H.disks shelf.old) (H.arms shelf.old))
        (outside_of (H.fault_count shelf.new) (H.disks shelf.new) (H.arms shelf.new)) (K.written sink.old) (K.written sink.new) }
    ensures unchanged { (slot : ℕ) → slot < known.disk_count settings.now → IsUnchanged H.Disk.Tells (H.disks shelf.old slot) (H.disks shelf.new slot) }
    ensures other_slots { SameFrom (known.disk_count settings.now) (H.disks shelf.old) (H.disks shelf.new) }
    ensures lanes { H.arms shelf.new ≡ H.arms shelf.old }
    ensures shelf { H.fault_count shelf.old ≤ H.fault_count shelf.new }
    ensures sink { IsErrOf result Stop.Output → Rose (K.fault_count sink.old) (K.fault_count sink.new) }
    ensures sink_count { K.fault_count sink.old ≤ K.fault_count sink.new }
    ensures appends { Appends (K.written sink.old) (K.written sink.new) }
{
    write_header(alloc, settings, sink)?;
    let mut damaged = false;
    for slot in 0..disk_count(settings) {
        let verdict = match check_slot(alloc, settings, slot, shelf) {
            Ok(verdict) => verdict,
            Err(fault) => return Err(write_refusal(alloc, fault, sink)),
        };
        write_verdict(alloc, slot, &verdict, sink)?;
        damaged |= is_damaged(&verdict);
    }
    Ok(damaged)
}

/// Checks a store and answers with the status: whether each disk is void, whole or damaged, and where, is written in a line
/// each. The disks are as they were.
pub fn check_store<H: Shelf, K: Sink>(
    alloc: Global,
    settings: Settings,
    sink: &mut K,
    shelf: &mut H,
) -> u8
    requires built { IsBuilt settings }
    requires disks_in { AreIn (known.disk_count settings) (H.disks shelf.old) }
    // What is written at each status, and why it comes.
    ensures checked { ChecksTo H.Disk.Tells settings result
        (outside_of (H.fault_count shelf.old) (H.disks shelf.old) (H.arms shelf.old))
        (outside_of (H.fault_count shelf.new) (H.disks shelf.new) (H.arms shelf.new)) (K.written sink.old) (K.written sink.new) }
    ensures sink { IsCounted (K.fault_count sink.old) (K.fault_count sink.new) (result ≡ 3) }
    ensures appends { Appends (K.written sink.old) (K.written sink.new) }

    // What is left, at each status.
    ensures unchanged { (slot : ℕ) → slot < known.disk_count settings → IsUnchanged H.Disk.Tells (H.disks shelf.old slot) (H.disks shelf.new slot) }
    ensures other_slots { SameFrom (known.disk_count settings) (H.disks shelf.old) (H.disks shelf.new) }
    ensures lanes { H.arms shelf.new ≡ H.arms shelf.old }
    ensures shelf { H.fault_count shelf.old ≤ H.fault_count shelf.new }
{
    match check_slots(alloc, &settings, sink, shelf) {
        Ok(false) => SOUND,
        Ok(true) => DAMAGED,
        Err(stop) => stop.status(),
    }
}
