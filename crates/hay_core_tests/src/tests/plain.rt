//! A volume of two replicas kept in maps: of each replica what its file holds, and what its readers are shown.
//! Compactions and flushes are not seen here: they change neither.
use hay_base::NoMemory;
use std::alloc::Global;
use std::collections::BTreeMap;

/// The pair of this number gets a photo of this byte, or none.
#[derive(Clone, Copy)]
pub struct Change {
    pub pair: u8,
    pub photo: Option<u8>,
}

#[derive(Drop)]
pub struct Replica {
    file: BTreeMap<u8, u8>,
    shown: BTreeMap<u8, u8>,
    doubt: Option<Change>,
}

#[derive(Drop)]
pub struct Plain {
    pub replicas: Vec<Replica>,
    pub frozen: bool,
}

fn make(map: &mut BTreeMap<u8, u8>, change: Change) -> Result<(), NoMemory> {
    match change.photo {
        Some(photo) => {
            map.insert(change.pair, photo)?;
        }
        None => {
            map.remove(&change.pair);
        }
    }
    Ok(())
}

impl Replica {
    fn new(alloc: Global) -> Replica {
        Replica {
            file: BTreeMap::new(alloc),
            shown: BTreeMap::new(alloc),
            doubt: None,
        }
    }

    pub fn held(&self, pair: u8) -> Option<u8> {
        self.file.get(&pair).copied()
    }

    pub fn shown(&self, pair: u8) -> Option<u8> {
        self.shown.get(&pair).copied()
    }

    // A put makes four device calls, and a delete two where the pair has a photo. The last but one writes what counts, and
    // the last is its sync.
    fn calls(&self, change: Change) -> u64 {
        match change.photo {
            Some(_) => 4,
            None if self.file.contains_key(&change.pair) => 2,
            None => 0,
        }
    }

    // Behind so many of its calls, where all are not made. A call that fails may have written.
    fn cut(&mut self, change: Change, made: u64, fails: bool) {
        let written = made.saturating_add(fails as u64);
        if written.saturating_add(1) >= self.calls(change) {
            self.doubt = Some(change);
        }
    }

    fn reopen(&mut self, keep: bool) -> Result<(), NoMemory> {
        if let Some(change) = self.doubt {
            if keep {
                make(&mut self.file, change)?;
            }
        }
        self.doubt = None;
        self.shown = self.file.clone()?;
        Ok(())
    }
}

impl Plain {
    pub fn new(alloc: Global) -> Result<Plain, NoMemory> {
        let mut replicas = Vec::new(alloc);
        replicas.push(Replica::new(alloc))?;
        replicas.push(Replica::new(alloc))?;
        Ok(Plain {
            replicas,
            frozen: false,
        })
    }

    /// How many device calls a change makes, where no compaction stands.
    pub fn calls(&self, change: Change) -> u64 {
        let mut calls = 0u64;
        for replica in &self.replicas {
            calls = calls.saturating_add(replica.calls(change));
        }
        calls
    }

    /// The first so many calls of a change, replica by replica.
    pub fn change(&mut self, change: Change, made: u64, fails: bool) -> Result<(), NoMemory> {
        let mut left = made;
        for replica in self.replicas.iter_mut() {
            let calls = replica.calls(change);
            if left < calls {
                replica.cut(change, left, fails);
                return Ok(());
            }
            make(&mut replica.file, change)?;
            left = left.saturating_sub(calls);
        }
        Ok(())
    }

    /// A whole change.
    pub fn publish(&mut self, change: Change) -> Result<(), NoMemory> {
        for replica in self.replicas.iter_mut() {
            make(&mut replica.file, change)?;
            make(&mut replica.shown, change)?;
        }
        Ok(())
    }

    /// Everything stops and is opened again.
    pub fn reopen(&mut self, keep: &[bool]) -> Result<(), NoMemory> {
        for (replica, keep) in self.replicas.iter_mut().zip(keep.iter()) {
            replica.reopen(*keep)?;
        }
        self.frozen = false;
        Ok(())
    }
}
