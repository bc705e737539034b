//! One file of a disk in memory.
ghost use Rattle.std.specs.Prelude.{◌≡◌, ◌⊎◌, ◌≤◌, ◌<◌, ◌+◌, ◌-◌, ◌^◌, ◌++◌, ◌∷◌, [], false, min, List, ℕ, length, take, drop, get_or, OnOk, OnErr, IfOk};
ghost use Rattle.hay_disk.specs.Disk.{overwrite};
ghost use Rattle.hay_memdisk.specs.Places.{no_place};

use crate::MemPiece;
use crate::place::{Place, Written, draw_between, grow, image_rng, mark, restore, scatter, settle};
use std::alloc::{AllocError, Global};

/// Where a piece was given out: its range, and the place of its hole in this.
#[derive(Clone, Copy)]
pub(crate) struct Seal {
    pub(crate) at: usize,
    pub(crate) len: usize,
    pub(crate) hole: usize,
}

/// The bytes that reads give, and what is kept beside them in room that is taken when the file grows.
#[derive(Drop)]
pub(crate) struct MemFile {
    bytes: Vec<u8>,
    places: Vec<Place>,
    written: Written,
    seals: Vec<Seal>,
    solid_len: usize,
    longest: usize,
    drawn: u64,
    ghost room: { length bytes.items ≤ length places.items },
    ghost short: { solid_len ≤ length bytes.items },
    ghost fits: { length bytes.items < 2 ^ 64 },
    ghost settled: { (k : ℕ) → k < length bytes.items → (k < written.from) ⊎ (written.to ≤ k) → (get_or places.items k no_place).loose ≡ false },
}

impl MemFile {
    ghost use Rattle.hay_disk.specs.Disk.{Changes, Keeps, Removes, Seals, IsSolid, IsFree, IsImage, empty_file};
    ghost use Rattle.hay_memdisk.specs.Mem.{state_of, drawn_of, Cycles, Settles, IsLooseIn, IsAsSynced};

    pub(crate) fn new(alloc: Global) -> MemFile
        ensures empty { state_of result ≡ empty_file }
        ensures drawn { drawn_of result ≡ 0 }
    {
        MemFile {
            bytes: Vec::new(alloc),
            places: Vec::new(alloc),
            written: Written::NONE,
            seals: Vec::new(alloc),
            solid_len: 0,
            longest: 0,
            drawn: 0,
        }
    }

    pub(crate) fn bytes(&self) -> &[u8]
        ensures { result.now ≡ (state_of self.now).now }
    {
        &self.bytes
    }

    /// How many bytes reads gave since the last power cycle.
    pub(crate) fn drawn(&self) -> u64
        ensures { result ≡ drawn_of self.now }
    {
        self.drawn
    }

    /// Puts these bytes in place of the whole file, on the disk, and forgets the pieces given out.
    pub(crate) fn set_bytes(&mut self, alloc: Global, bytes: &[u8]) -> Result<(), AllocError>
        ensures now { OnOk result ((state_of self.new).now ≡ bytes.now) }
        ensures solid { OnOk result (IsSolid (state_of self.new)) }
        ensures free { OnOk result (IsFree (state_of self.new)) }
        ensures same { OnErr result (state_of self.new ≡ state_of self.old) }
        ensures drawn { drawn_of self.new ≡ drawn_of self.old }
    {
        let copy = bytes.to_vec(alloc)?;
        grow(&mut self.places, copy.len())?;
        self.written = Written::NONE.widen(0, copy.len());
        self.bytes = copy;
        self.solid_len = 0;
        self.settle();
        Ok(())
    }

    /// Writes over what stands there, and past the end. The range is loose.
    pub(crate) fn write(&mut self, at: usize, bytes: &[u8]) -> Result<(), AllocError>
        requires { at ≤ length (state_of self.old).now }
        ensures written { OnOk result ((state_of self.new).now ≡ overwrite at bytes.now (state_of self.old).now) }
        ensures changes { Changes at (length bytes.now) (state_of self.old) (state_of self.new) }
        ensures same { OnErr result (state_of self.new ≡ state_of self.old) }
        ensures grows { OnErr result (length (state_of self.old).now < at + length bytes.now) }
        ensures loose { OnOk result (IsLooseIn at (length bytes.now) (state_of self.new)) }
        ensures drawn { drawn_of self.new ≡ drawn_of self.old }
    {
        let end = at + bytes.len();
        grow(&mut self.places, end)?;
        put(&mut self.bytes, at, bytes)?;
        mark(&mut self.places, at, bytes);
        self.written = self.written.widen(at, end);
        self.longest = self.longest.max(end);
        Ok(())
    }

    /// A write that fails: the first half of the bytes is there if there is room, and the whole range is loose.
    pub(crate) fn tear(&mut self, at: usize, bytes: &[u8])
        requires { at ≤ length (state_of self.old).now }
        ensures changes { Changes at (length bytes.now) (state_of self.old) (state_of self.new) }
        ensures loose { IsLooseIn at (length bytes.now) (state_of self.new) }
        ensures drawn { drawn_of self.new ≡ drawn_of self.old }
    {
        let _ = self.write(at, &bytes[..bytes.len() / 2]);
        self.ask(at, bytes);
    }

    // Makes the part of a range that has places loose, as if these bytes had been asked for.
    fn ask(&mut self, at: usize, bytes: &[u8])
        requires { at ≤ length (state_of self.old).now }
        ensures changes { Changes at (length bytes.now) (state_of self.old) (state_of self.new) }
        ensures loose { IsLooseIn at (length bytes.now) (state_of self.new) }
        ensures drawn { drawn_of self.new ≡ drawn_of self.old }
    {
        let count = bytes.len().min(self.places.len() - at);
        mark(&mut self.places, at, &bytes[..count]);
        self.written = self.written.widen(at, at + count);
    }

    /// Makes nothing loose. It visits the range written since the last sync alone.
    pub(crate) fn sync(&mut self)
        ensures solid { IsSolid (state_of self.new) }
        ensures keeps { Keeps (state_of self.old) (state_of self.new) }
        ensures drawn { drawn_of self.new ≡ drawn_of self.old }
    {
        let held = self.bytes.len();
        settle(&mut self.places, &self.bytes, self.written);
        self.written = Written::NONE;
        self.solid_len = held;
        self.longest = held;
    }

    /// Takes the file away, and forgets the pieces given out.
    pub(crate) fn remove(&mut self)
        ensures removes { Removes (state_of self.old) (state_of self.new) }
        ensures free { IsFree (state_of self.new) }
        ensures drawn { drawn_of self.new ≡ drawn_of self.old }
    {
        self.longest = self.longest.max(self.bytes.len());
        self.bytes.clear();
        self.seals.clear();
        self.solid_len = 0;
    }

    /// Reads from an offset on, and counts the bytes.
    pub(crate) fn read_into(&mut self, at: usize, out: &mut [u8]) -> usize
        ensures count { result ≡ min (length out.old) (length (state_of self.old).now - at) }
        ensures bytes { out.new ≡ take result (drop at (state_of self.old).now) ++ drop result out.old }
        ensures same { state_of self.new ≡ state_of self.old }
        ensures drawn { drawn_of self.new ≡ min (2 ^ 64 - 1) (drawn_of self.old + result) }
    {
        let start = self.bytes.len().min(at);
        let count = out.len().min(self.bytes.len() - start);
        out[..count].copy_from_slice(&self.bytes[start..start + count]);
        self.drawn = self.drawn.saturating_add(count as u64);
        count
    }

    /// Gives a piece out.
    pub(crate) fn seal(&mut self, alloc: Global, seal: Seal) -> Result<MemPiece, AllocError>
        requires inside { seal.at + seal.len ≤ length (state_of self.old).now }
        requires hole { seal.hole < seal.len }
        ensures bytes { IfOk result (λ piece. piece.bytes.now ≡ take seal.len (drop seal.at (state_of self.old).now)) }
        ensures hole { IfOk result (λ piece. piece.hole ≡ seal.hole) }
        ensures told { OnOk result (self.new.seals.items ≡ self.old.seals.items ++ seal ∷ []) }
        ensures seals { Seals seal.at seal.len seal.hole (state_of self.old) (state_of self.new) }
        ensures refused { OnErr result (state_of self.new ≡ state_of self.old) }
        ensures drawn { drawn_of self.new ≡ drawn_of self.old }
    {
        let bytes = self.bytes[seal.at..seal.at + seal.len].to_vec(alloc)?;
        self.seals.push(seal)?;
        Ok(MemPiece {
            bytes: bytes.leak(),
            hole: seal.hole,
        })
    }

    /// Makes all that reads give solid, and forgets the pieces given out.
    pub(crate) fn settle(&mut self)
        ensures { Settles (state_of self.old) (state_of self.new) (drawn_of self.old) (drawn_of self.new) }
    {
        self.sync();
        self.seals.clear();
    }

    /// Stops the file. With pick 0 it is as at its last sync, with pick 1 as reads give it, and else the pick and the
    /// file's number choose.
    pub(crate) fn power_cycle(&mut self, pick: u64, file: u32)
        ensures cycles { Cycles (state_of self.old) (state_of self.new) (drawn_of self.new) }
        ensures back { pick ≡ 0 → IsAsSynced self.old (state_of self.new).now }
        ensures stays { pick ≡ 1 → (state_of self.new).now ≡ (state_of self.old).now }
    {
        self.stop(pick, file);
        self.settle();
        self.drawn = 0;
    }

    // Leaves an image of the file.
    fn stop(&mut self, pick: u64, file: u32)
        ensures left { IsImage (state_of self.old) (state_of self.new).now }
        ensures back { pick ≡ 0 → IsAsSynced self.old (state_of self.new).now }
        ensures stays { pick ≡ 1 → (state_of self.new).now ≡ (state_of self.old).now }
    {
        match pick {
            0 => self.fall_back(),
            1 => {}
            _ => self.lose(pick, file),
        }
    }

    // Gives each loose byte its last solid value, and the file its last solid length.
    fn fall_back(&mut self)
        ensures left { IsImage (state_of self.old) (state_of self.new).now }
        ensures back { IsAsSynced self.old (state_of self.new).now }
    {
        restore(&mut self.bytes, &self.places);
        self.bytes.truncate(self.solid_len);
    }

    // Gives the file a drawn length and each range of loose bytes a drawn image.
    fn lose(&mut self, pick: u64, file: u32)
        ensures { IsImage (state_of self.old) (state_of self.new).now }
    {
        let mut rng = image_rng(pick, file);
        let len = draw_between(&mut rng, self.solid_len, self.bytes.len());
        scatter(&mut self.bytes, &self.places, &mut rng);
        self.bytes.truncate(len);
    }
}

// Writes over bytes, and past their end.
fn put(held: &mut Vec<u8>, at: usize, bytes: &[u8]) -> Result<(), AllocError>
    requires { at ≤ length held.old.items }
    ensures written { OnOk result (held.new.items ≡ overwrite at bytes.now held.old.items) }
    ensures same { OnErr result (held.new.items ≡ held.old.items) }
    ensures grows { OnErr result (length held.old.items < at + length bytes.now) }
{
    let end = at + bytes.len();
    let len = held.len();
    if len < end {
        held.extend_from_slice(&bytes[len - at..])?;
        held[at..len].copy_from_slice(&bytes[..len - at]);
    } else {
        held[at..end].copy_from_slice(bytes);
    }
    Ok(())
}
