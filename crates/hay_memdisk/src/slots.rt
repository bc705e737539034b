//! Numbered slots from which values are taken out and given back.
ghost use Rattle.std.specs.Prelude.{◌≡◌, ◌≢◌, true, false, None, Some, ℕ, IfOk, OnOk, OnErr, IfSome, IfNone, option_map};

use std::alloc::{AllocError, Global};
use std::collections::BTreeMap;

/// A slot holds nothing yet, a value, or the room of a value that is out.
#[derive(Drop)]
pub(crate) struct Slots<T> {
    slots: BTreeMap<u32, Option<T>>,
}

impl<T: Drop> Slots<T> {
    ghost use Rattle.hay_disk.specs.Disk.{KeepsOthers};
    ghost use Rattle.std.specs.Borrow.{sem};
    ghost use Rattle.hay_memdisk.specs.Lent.{lends_value};
    ghost use Rattle.hay_memdisk.specs.Slots.{slot_at, slot_value, is_out};

    pub(crate) fn new(alloc: Global) -> Slots<T>
        ensures { (n : ℕ) → slot_at result n ≡ None }
    {
        Slots {
            slots: BTreeMap::new(alloc),
        }
    }

    /// Takes out what a slot holds, if it ever held something.
    pub(crate) fn take(&mut self, slot: u32) -> Result<Option<T>, AllocError>
        requires { is_out (slot_at self.old slot) ≡ false }
        ensures taken { IfOk result (λ taken. slot_at self.old slot ≡ option_map Some taken) }
        ensures out { OnOk result (slot_at self.new slot ≡ Some None) }
        ensures others { KeepsOthers slot (slot_at self.old) (slot_at self.new) }
        ensures err { OnErr result (slot_at self.new ≡ slot_at self.old) }
    {
        if !self.slots.contains_key(&slot) {
            self.slots.insert(slot, None)?;
            return Ok(None);
        }
        match self.slots.get_mut(&slot) {
            Some(held) => Ok(held.take()),
            None => Ok(None),
        }
    }

    /// Gives a value back.
    pub(crate) fn give(&mut self, slot: u32, value: T)
        requires { is_out (slot_at self.old slot) ≡ true }
        ensures back { slot_at self.new slot ≡ Some (Some value) }
        ensures others { KeepsOthers slot (slot_at self.old) (slot_at self.new) }
    {
        if let Some(held) = self.slots.get_mut(&slot) {
            *held = Some(value);
        }
    }

    /// What a slot holds.
    pub(crate) fn get(&self, slot: u32) -> Option<&T>
        ensures held { IfSome result (λ value. slot_at self.now slot ≡ Some (Some value.now)) }
        ensures none { IfNone result (slot_value self.now slot ≡ None) }
    {
        match self.slots.get(&slot) {
            Some(held) => held.as_ref(),
            None => None,
        }
    }

    /// Puts a value into a slot, in place of what it holds. Where memory is wanting it changes nothing.
    pub(crate) fn put(&mut self, slot: u32, value: T) -> Result<(), AllocError>
        ensures ok { OnOk result (slot_at self.new slot ≡ Some (Some value)) }
        ensures others { KeepsOthers slot (slot_at self.old) (slot_at self.new) }
        ensures err { OnErr result (slot_at self.new ≡ slot_at self.old) }
    {
        self.slots.insert(slot, Some(value))?;
        Ok(())
    }

    /// What a slot holds, to be changed.
    pub(crate) fn get_mut(&mut self, slot: u32) -> Option<&mut T>
        ensures* writes_back { sem 𝓛 (lends_value T.row self.entry slot result) }
        ensures held { IfSome result (λ value. slot_at self.old slot ≡ Some (Some value.now)) }
        ensures none { IfNone result (slot_value self.old slot ≡ None) }
    {
        match self.slots.get_mut(&slot) {
            Some(held) => held.as_mut(),
            None => None,
        }
    }
}
